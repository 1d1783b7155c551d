//! Encapsulations.
ghost use Rattle.std.specs.Prelude.{◌≡◌};
ghost use Rattle.ior_text.specs.Encapsulated.{inside};

use cdr_core::Reader;

/// A reader behind the octet of an encapsulation's byte order; none where that octet is absent or above 1
/// (CORBA 3.3 Part 2, 9.3.3).
pub fn enter(bytes: &[u8]) -> Option<Reader<'_>>
    ensures { result ≡ inside bytes.now }
{
    let [order, rest @ ..] = bytes else {
        return None;
    };
    if *order > 1 {
        return None;
    }
    Some(Reader::new(rest, *order == 1, 1))
}
