//! The walk from the root along a path. It takes no memory.
ghost use Rattle.std.specs.Prelude.{◌≡◌, if◌then◌else◌, take};
ghost use Rattle.history_standing.specs.Walks as walks;
ghost use Rattle.history_standing.specs.declared.found.Found.{Found};

use crate::found::Found;
use crate::node::Node;
use crate::nodes::{child_of, node_at};
use object_key::PathView;
use poa_base::Name;

/// From an adapter along the rest of the path.
fn walk_from(nodes: &[Node], here: &Node, rest: &PathView<'_>) -> Found
    ensures { result ≡ walks.walk_from nodes.now here.now rest.now }
{
    let Some((name, rest)) = rest.split_first() else {
        return arrived(here);
    };
    if here.dying {
        return Found::Dying(here.number);
    }
    match child_of(nodes, here.path.as_slice(), name) {
        Some(child) => walk_from(nodes, child, &rest),
        None => Found::Missing {
            parent: here.number,
            depth: here.path.as_slice().len() as u32,
        },
    }
}

/// The path ends here.
fn arrived(here: &Node) -> Found
    ensures { result ≡ (if here.now.dying then Found.Dying here.now.number else Found.Live
        here.now.number) }
{
    if here.dying {
        Found::Dying(here.number)
    } else {
        Found::Live(here.number)
    }
}

/// The walk from the root along the path of a key.
pub fn walk(nodes: &[Node], path: &PathView<'_>) -> Found
    ensures { result ≡ walks.walk nodes.now path.now }
{
    match node_at(nodes, &[]) {
        Some(root) => walk_from(nodes, root, path),
        None => Found::Missing {
            parent: 0,
            depth: 0,
        },
    }
}

/// The number of the adapter met, or of the parent of the missing child.
pub fn adapter_met(found: Found) -> u32
    ensures { result ≡ walks.adapter_met found }
{
    match found {
        Found::Live(number) | Found::Dying(number) => number,
        Found::Missing { parent, .. } => parent,
    }
}

/// So many names from the front, or all.
fn front(path: &[Name], count: usize) -> &[Name]
    ensures { result.now ≡ take count path.now }
{
    if count < path.len() {
        &path[..count]
    } else {
        path
    }
}

/// The path of the missing child.
pub fn child_met(found: Found, path: &[Name]) -> &[Name]
    ensures { result.now ≡ walks.child_met found path.now }
{
    match found {
        Found::Live(_) | Found::Dying(_) => path,
        Found::Missing { depth, .. } => front(path, depth as usize + 1),
    }
}

/// The path of the adapter found, or of the parent of the missing child.
pub fn place_met(found: Found, path: &[Name]) -> &[Name]
    ensures { result.now ≡ walks.place_met found path.now }
{
    match found {
        Found::Live(_) | Found::Dying(_) => path,
        Found::Missing { depth, .. } => front(path, depth as usize),
    }
}
