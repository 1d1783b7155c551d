//! Paths as lists of names: which leads to which.
ghost use Rattle.std.specs.Prelude.{◌≡◌, [], ◌∷◌, ◌++◌};
ghost use Rattle.history_standing.specs.Paths as paths;

use poa_base::Name;

/// Whether the first path is the second, or one above it.
pub fn leads_to(path: &[Name], other: &[Name]) -> bool
    ensures { result ≡ paths.leads_to path.now other.now }
{
    match path {
        [] => true,
        [name, path @ ..] => match other {
            [] => false,
            [next, other @ ..] => name == next && leads_to(path, other),
        },
    }
}

/// Whether the path is that of the child of this name. Most paths that differ do so in their last names.
pub(crate) fn is_child(path: &[Name], parent: &[Name], name: &[u8]) -> bool
    ensures { result ≡ paths.same_path path.now (parent.now ++ name.now ∷ []) }
{
    match path {
        [] => false,
        [above @ .., last] => last.as_slice() == name && above == parent,
    }
}

/// All names but the last.
pub fn parent_path(path: &[Name]) -> &[Name]
    ensures { result.now ≡ paths.parent_path path.now }
{
    match path {
        [] => path,
        [parent @ .., _] => parent,
    }
}
