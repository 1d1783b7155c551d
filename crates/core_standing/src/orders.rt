//! What an order to a manager waits for.
ghost use Rattle.std.specs.Prelude.{◌≡◌, ◌==◌, ◌&&◌, ◌||◌, not, nat_lt};
ghost use Rattle.std.specs.List.{list_all, list_any};
ghost use Rattle.history_standing.specs.Ends as ends;
ghost use Rattle.poa_history.specs.Settling as settling;
ghost use Rattle.history_standing.specs.Templates as configured;
ghost use Rattle.core_standing.specs.Seen.{seen};

use crate::standing::Standing;
use active_map::Activations;
use active_map::over::is_over;
use history_standing::templates::{has_activator, manager_at};
use history_standing::{Activation, Node};
use poa_base::Config;

/// Whether it is the adapter of this number, and one of the manager's.
fn is_manager_of(config: &Config, manager: u32, number: u32, node: &Node) -> bool
    ensures { result ≡ (node.now.number == number)
        && (configured.manager_at config.now node.now.path == manager) }
{
    node.number == number && manager_at(config, node.path.as_slice()) == manager
}

/// Whether the adapter is one of the manager's.
fn is_managed(config: &Config, standing: &Standing, manager: u32, number: u32) -> bool
    ensures { result ≡ settling.is_managed config.now (seen standing.now) manager number }
{
    standing
        .nodes
        .iter()
        .any(|node| is_manager_of(config, manager, number, node))
}

/// Whether something is in flight in the adapters of the manager.
fn is_flown(config: &Config, standing: &Standing, manager: u32) -> bool
    ensures { result ≡ list_any
        (λ f. settling.is_managed config.now (seen standing.now) manager f.adapter)
        standing.now.flights.items }
{
    let mut flown = false;
    for flight in &standing.flights {
        if is_managed(config, standing, manager, flight.adapter) {
            flown = true;
        }
    }
    flown
}

/// Whether nothing is in flight in the adapters of the manager.
pub fn is_quiet(config: &Config, standing: &Standing, manager: u32) -> bool
    ensures { result ≡ settling.is_quiet config.now (seen standing.now) manager }
{
    !is_flown(config, standing, manager)
}

/// Whether an activation is over, or none that a deactivation of the manager ends.
fn is_ended(config: &Config, manager: u32, begun: usize, activation: &Activation) -> bool
    ensures { result ≡ ends.is_over config.now activation.now ||
        (not (nat_lt activation.now.number begun) || not
        (configured.has_activator config.now activation.now.path
        && (configured.manager_at config.now activation.now.path == manager))) }
{
    let path = activation.path.as_slice();
    is_over(config, activation)
        || (activation.number as usize >= begun
            || !(has_activator(config, path) && manager_at(config, path) == manager))
}

/// Whether those of the activations that a deactivation of the manager ends are over.
fn all_ended(config: &Config, manager: u32, begun: usize, activations: &Activations) -> bool
    ensures { result ≡ list_all
        (λ a. ends.is_over config.now a ||
        (not (nat_lt a.number begun) || not
        (configured.has_activator config.now a.path
        && (configured.manager_at config.now a.path == manager)))) activations.now.kept }
{
    activations
        .iter()
        .all(|activation| is_ended(config, manager, begun, activation))
}

/// Whether the activations begun by then in the manager's adapters with an activator are over.
pub fn are_ended(config: &Config, standing: &Standing, manager: u32, begun: usize) -> bool
    ensures { result ≡ settling.are_ended config.now (seen standing.now) manager begun }
{
    all_ended(config, manager, begun, &standing.activations)
}
