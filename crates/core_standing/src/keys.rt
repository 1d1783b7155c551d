//! The key that a target spells, seen where it lies, and what stands at its path.
ghost use Rattle.std.specs.Prelude.{◌≡◌, option_copied, IfSome};
ghost use Rattle.history_standing.specs.Keys as keys;

use history_standing::nodes::node_numbered;
use history_standing::walks::adapter_met;
use history_standing::{Found, Node};
use object_key::{KeyView, PathView, view_key};
use poa_base::{Call, Name};
use poa_history::calls::target_of;

/// The key whose spelling the bytes are, if there is one. Takes no memory.
pub fn key_of(bytes: &[u8]) -> Option<KeyView<'_>>
    ensures { result ≡ keys.key_of bytes.now }
{
    view_key(bytes).ok()
}

/// The key of a call; none where its target gives none, or no spelling of one. Takes no memory.
pub fn key_in(call: Option<&Call>) -> Option<KeyView<'_>>
    ensures { result ≡ keys.key_in (option_copied call.entry) }
{
    match target_of(call) {
        Some(bytes) => key_of(bytes.as_slice()),
        None => None,
    }
}

/// The path of the adapter that the walk along the path of a key met, where it has the same names. Takes no memory.
pub fn path_met<'a>(nodes: &'a [Node], found: Found, path: &PathView<'_>) -> Option<&'a [Name]>
    ensures { IfSome result (λ names. names.now ≡ path.now) }
{
    let names = node_numbered(nodes, adapter_met(found))?.path.as_slice();
    if path.is(names) { Some(names) } else { None }
}
