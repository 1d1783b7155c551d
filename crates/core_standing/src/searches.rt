//! The activations that stand, searched.
ghost use Rattle.std.specs.Prelude.{◌≡◌, ◌==◌, ◌&&◌, find, option_copied};
ghost use Rattle.history_standing.specs.Standings as stands;
ghost use Rattle.poa_history.specs.Turns as turns;
ghost use Rattle.core_standing.specs.Seen.{seen};

use crate::standing::Standing;
use active_map::Activations;
use active_map::activation::{has_servant, is_mapped};
use history_standing::Activation;
use poa_base::Sid;

/// The activation of a number, where it isn't forgotten.
pub fn activation_numbered(standing: &Standing, number: u32) -> Option<&Activation>
    ensures { option_copied result ≡ turns.activation_numbered (seen standing.now) number }
{
    standing.activations.numbered(number)
}

/// Whether the servant is in the map of the adapter by this activation.
fn is_by(adapter: u32, servant: Sid, activation: &Activation) -> bool
    ensures { result ≡ (activation.now.adapter == adapter) &&
        (stands.is_mapped activation.now && stands.has_servant servant activation.now) }
{
    activation.adapter == adapter && (is_mapped(activation) && has_servant(servant, activation))
}

/// The first of them by which the servant is in the map of the adapter.
fn first_mapped(activations: &Activations, adapter: u32, servant: Sid) -> Option<&Activation>
    ensures { option_copied result
        ≡ find (λ a. (a.adapter == adapter) && (stands.is_mapped a && stands.has_servant servant a))
        activations.now.kept }
{
    activations
        .iter()
        .find(|activation| is_by(adapter, servant, activation))
}

/// The first activation by which the servant is in the map of the adapter.
pub fn mapped(standing: &Standing, adapter: u32, servant: Sid) -> Option<&Activation>
    ensures { option_copied result
        ≡ find (λ a. (a.adapter == adapter) && (stands.is_mapped a && stands.has_servant servant a))
        (seen standing.now).activations }
{
    first_mapped(&standing.activations, adapter, servant)
}

/// Whether the servant is in the map of the adapter by one of them.
fn is_any_by(activations: &Activations, adapter: u32, servant: Sid) -> bool
    ensures { result ≡ stands.is_in_map activations.now.kept adapter servant }
{
    activations
        .iter()
        .any(|activation| is_by(adapter, servant, activation))
}

/// Whether the servant is in the map of the adapter.
pub fn is_in_map(standing: &Standing, adapter: u32, servant: Sid) -> bool
    ensures { result ≡ stands.is_in_map (seen standing.now).activations adapter servant }
{
    is_any_by(&standing.activations, adapter, servant)
}
