//! What stands at a path, under a number and below an adapter, and the mark of a destroy. A path is its names.
//! Nothing here takes memory.
ghost use Rattle.std.specs.Prelude.{◌≡◌, ◌==◌, ◌&&◌, [], ◌∷◌, ◌++◌, find, map, option_copied};
ghost use Rattle.history_standing.specs.Nodes as tree;
ghost use Rattle.history_standing.specs.Paths as paths;

use crate::node::Node;
use crate::paths::{is_child, leads_to};
use poa_base::Name;

/// The adapter that stands at a path.
pub fn node_at<'a>(nodes: &'a [Node], path: &[Name]) -> Option<&'a Node>
    ensures { option_copied result ≡ tree.node_at nodes.now path.now }
{
    nodes.iter().find(|node| node.path.as_slice() == path)
}

/// The child of this name.
pub(crate) fn child_of<'a>(nodes: &'a [Node], parent: &[Name], name: &[u8]) -> Option<&'a Node>
    ensures { option_copied result ≡ tree.node_at nodes.now (parent.now ++ name.now ∷ []) }
{
    nodes
        .iter()
        .find(|node| is_child(node.path.as_slice(), parent, name))
}

/// The adapter of a number.
pub fn node_numbered(nodes: &[Node], number: u32) -> Option<&Node>
    ensures { option_copied result ≡ find (λ n. n.number == number) nodes.now }
{
    nodes.iter().find(|node| node.number == number)
}

/// Whether the adapter has this number and stands at the path or below it.
fn is_under(node: &Node, path: &[Name], number: u32) -> bool
    ensures { result ≡ (node.now.number == number) && paths.leads_to path.now node.now.path }
{
    node.number == number && leads_to(path, node.path.as_slice())
}

/// Whether an adapter of this number stands at the path or below it.
pub fn stands_under(nodes: &[Node], path: &[Name], number: u32) -> bool
    ensures { result ≡ tree.stands_under nodes.now path.now number }
{
    nodes.iter().any(|node| is_under(node, path, number))
}

/// The adapter is being destroyed, if it is that of the path or below it.
fn mark_one(node: &mut Node, path: &[Name])
    ensures { node.new ≡ tree.marked path.now node.old }
{
    if leads_to(path, node.path.as_slice()) {
        node.dying = true;
    }
}

/// The adapter of the path and those below it are being destroyed.
#[tactic(auto, using(crate::proofs::InPlace::mapped_one))]
pub fn mark(nodes: &mut Vec<Node>, path: &[Name])
    ensures { nodes.new.items ≡ map (tree.marked path.now) nodes.old.items }
{
    for node in nodes.iter_mut() {
        mark_one(node, path);
    }
}
