//! When an adapter is gone.
ghost use Rattle.std.specs.Prelude.{◌≡◌, ◌==◌, ◌&&◌, ◌||◌, not, true, false};
ghost use Rattle.std.specs.List.{list_any};
ghost use Rattle.history_standing.specs.Nodes.{stands_under};
ghost use Rattle.history_standing.specs.Paths.{is_root, leads_to};
ghost use Rattle.history_standing.specs.Ends as ends;
ghost use Rattle.history_standing.specs.Trees.{In};
ghost use Rattle.core_standing.specs.Seen.{seen};

use crate::standing::Standing;
use active_map::Activations;
use history_standing::paths::leads_to;
use history_standing::{Node, nodes};
use poa_base::{Config, Name};

/// Whether something is in flight at the path or below it.
fn is_flown_under(standing: &Standing, path: &[Name]) -> bool
    ensures { result ≡ list_any (λ f. stands_under standing.now.nodes.items path.now f.adapter)
        standing.now.flights.items }
{
    standing.flights.iter().any(|flight| nodes::stands_under(&standing.nodes, path, flight.adapter))
}

/// Whether the adapter is at the path or below it, and one of its activations isn't over.
fn is_lived_in(config: &Config, node: &Node, path: &[Name], activations: &Activations) -> bool
    ensures { result ≡ leads_to path.now node.now.path
        && list_any (λ a. (a.adapter == node.now.number) && not (ends.is_over config.now a))
        activations.now.kept }
{
    leads_to(path, node.path.as_slice()) && activations.has_live(config, node.number)
}

/// Whether one of the adapters is at the path or below it, and one of its activations isn't over.
fn are_lived_in(config: &Config, nodes: &[Node], path: &[Name], activations: &Activations) -> bool
    ensures { result ≡ list_any
        (λ n. leads_to path.now n.path
        && list_any (λ a. (a.adapter == n.number) && not (ends.is_over config.now a))
        activations.now.kept) nodes.now }
{
    nodes
        .iter()
        .any(|node| is_lived_in(config, node, path, activations))
}

/// Whether one of the activations isn't over, and is of an adapter at the path or below it. The adapters are asked,
/// since those of an adapter are found at once.
fn are_lived_under(
    config: &Config,
    nodes: &[Node],
    path: &[Name],
    activations: &Activations,
) -> bool
    ensures { result ≡ list_any
        (λ a. not (ends.is_over config.now a) && stands_under nodes.now path.now a.adapter)
        activations.now.kept }
{
    are_lived_in(config, nodes, path, activations)
}

/// Whether an activation at the path or below it isn't over.
fn is_lived_under(config: &Config, standing: &Standing, path: &[Name]) -> bool
    ensures { result ≡ list_any
        (λ a. not (ends.is_over config.now a)
        && stands_under standing.now.nodes.items path.now a.adapter)
        (seen standing.now).activations }
{
    are_lived_under(config, &standing.nodes, path, &standing.activations)
}

/// Whether an adapter is being destroyed, with nothing left to end in it or below it.
pub fn is_done_with(config: &Config, standing: &Standing, node: &Node) -> bool
    ensures { result ≡ ends.is_done_with config.now (seen standing.now) node.now }
{
    let path = node.path.as_slice();
    node.dying && (!is_flown_under(standing, path) && !is_lived_under(config, standing, path))
}

/// Whether one of the adapter's own activations isn't over. Then an adapter that stands goes on standing.
fn lives_itself(config: &Config, standing: &Standing, node: &Node) -> bool
    ensures { result ≡ true → In node.now standing.now.nodes.items
        → ends.is_done_with config.now (seen standing.now) node.now ≡ false }
{
    standing.activations.has_live(config, node.number)
}

/// Whether an adapter that stands isn't done with. Its own activations are asked first: those of an adapter are found at once.
fn goes_on(config: &Config, standing: &Standing, node: &Node) -> bool
    ensures { In node.now standing.now.nodes.items
        → result ≡ not (ends.is_done_with config.now (seen standing.now) node.now) }
{
    if !node.dying {
        return true;
    }
    if lives_itself(config, standing, node) {
        return true;
    }
    !is_done_with(config, standing, node)
}

/// Whether an adapter that stands goes on standing.
pub fn stays(config: &Config, standing: &Standing, node: &Node) -> bool
    ensures { In node.now standing.now.nodes.items
        → result ≡ is_root node.now.path
        || not (ends.is_done_with config.now (seen standing.now) node.now) }
{
    match node.path.as_slice() {
        [] => true,
        [_, ..] => goes_on(config, standing, node),
    }
}

/// Whether the adapter of this number was created and is gone.
pub fn is_gone(config: &Config, standing: &Standing, number: u32) -> bool
    ensures { result ≡ ends.is_gone config.now (seen standing.now) number }
{
    number < standing.count
        && match nodes::node_numbered(&standing.nodes, number) {
            Some(node) => is_done_with(config, standing, node),
            None => true,
        }
}
