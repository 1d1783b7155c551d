//! Whole pieces to a link.
ghost use Rattle.std.specs.Prelude.{◌≡◌, false};
ghost use Rattle.outside.specs.Cause.{HasCause};
ghost use Rattle.outside.specs.Link.{Writes};

use crate::linking::Link;
use crate::writing::Wrote;

/// Writes all the bytes, and answers whether the link took them. Else a write failed.
pub fn write_all<L: Link>(link: &mut L, bytes: &[u8]) -> bool
    ensures writes { Writes bytes.now (L.shown link.old) (L.shown link.new) result }
    ensures failed { HasCause (L.shown link.old).write_faults (L.shown link.new).write_faults
        (result ≡ false) }
{
    let mut rest = bytes;
    while !rest.is_empty() {
        match link.write(rest) {
            Wrote::Wrote(count) => rest = &rest[count..],
            Wrote::Failed => return false,
        }
    }
    true
}
