//! The path of an adapter that is seen where it lies.
ghost use Rattle.std.specs.Prelude.{◌≡◌, ◌∷◌, ◌↔◌, [], IfSome, IfNone, IfOk, IsSome, nat_eq, ◌≤◌};
ghost use Rattle.std.specs.Cmp.Lexicographic.{pointwise};
ghost use Rattle.object_key.specs.Reading.{names_of};
ghost use Rattle.object_key.specs.Lent.{SpellsNames};

use poa_base::{Name, Path, WantMemory};
use std::alloc::Global;
use std::marker::Model;

/// A path whose names are lent from the bytes that spell it: from the root down, each behind an octet of its
/// length. Contracts see it as the list of its names.
#[derive(Drop)]
pub struct PathView<'a> {
    count: u8,
    names: &'a [u8],
}

impl<'a> Model for PathView<'a> {
    ghost use Rattle.std.specs.Prelude.{◌≤◌, List, ℕ};
    ghost use Rattle.object_key.specs.Reading.{names_of};
    ghost use Rattle.object_key.specs.Lent.{SpellsNames};

    ghost Value = { List (List ℕ) };

    ghost view = { λ p. names_of p.count p.names.now };

    ghost invariant = { λ p. (p.count ≤ 16) × SpellsNames p.count p.names.now };
}

impl<'a> PathView<'a> {
    // The path of so many names; none where they are more than 16.
    pub(crate) fn of_spelling(count: u8, names: &'a [u8]) -> Option<PathView<'a>>
        requires { SpellsNames count names.now }
        ensures exact { IsSome result ↔ (count ≤ 16) }
        ensures value { IfSome result (λ path. path ≡ names_of count names.now) }
    {
        if count > 16 {
            return None;
        }
        Some(PathView { count, names })
    }

    /// The path of the root.
    pub fn root() -> PathView<'static>
        ensures { result ≡ [] }
    {
        PathView {
            count: 0,
            names: &[],
        }
    }

    /// The first name, lent from where it lies, and the path behind it; none where there are no names.
    pub fn split_first(&self) -> Option<(&'a [u8], PathView<'a>)>
        ensures some { IfSome result (λ parts. self.now ≡ parts.0.now ∷ parts.1) }
        ensures none { IfNone result (self.now ≡ []) }
    {
        let [len, behind @ ..] = self.names else {
            return None;
        };
        let (name, names) = behind.split_at(*len as usize);
        let rest = PathView {
            count: self.count - 1,
            names,
        };
        Some((name, rest))
    }

    /// Whether these are the names of the path.
    pub fn is(&self, path: &[Name]) -> bool
        ensures { result ≡ pointwise (pointwise nat_eq) path.now self.now }
    {
        match path {
            [] => self.names.is_empty(),
            [name, path @ ..] => match self.split_first() {
                Some((first, rest)) => name.as_slice() == first && rest.is(path),
                None => false,
            },
        }
    }

    /// The path, with a copy of each name.
    pub fn to_path(&self, alloc: Global) -> Result<Path, WantMemory>
        ensures { IfOk result (λ path. path ≡ self.now) }
    {
        Path::from_vec(self.to_names(alloc)?).ok_or(WantMemory)
    }

    // A copy of each name.
    fn to_names(&self, alloc: Global) -> Result<Vec<Name>, WantMemory>
        ensures { IfOk result (λ names. names.items ≡ self.now) }
    {
        let mut names = Vec::new(alloc);
        let mut rest = PathView {
            count: self.count,
            names: self.names,
        };
        while let Some((name, behind)) = rest.split_first() {
            names.push(named(alloc, name)?)?;
            rest = behind;
        }
        Ok(names)
    }
}

// A copy of a name.
fn named(alloc: Global, bytes: &[u8]) -> Result<Name, WantMemory>
    ensures { IfOk result (λ name. name ≡ bytes.now) }
{
    Name::from_vec(Vec::from_slice(alloc, bytes)?).ok_or(WantMemory)
}
