//! Encapsulations.
ghost use Rattle.std.specs.Prelude.{◌≡◌};
ghost use Rattle.ior_text.specs.Encapsulated.{inside};

use cdr_core::View;

/// A view behind the octet of an encapsulation's byte order; none where that octet is absent or above 1
/// (CORBA 3.3 Part 2, 9.3.3).
pub(crate) fn enter<'a>(bytes: &'a [u8]) -> Option<View<'a>>
    ensures { result ≡ inside bytes.now }
{
    let [order, rest @ ..] = bytes else {
        return None;
    };
    if *order > 1 {
        return None;
    }
    Some(View::new(rest, *order == 1, 1))
}
