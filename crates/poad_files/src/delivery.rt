//! Whole pieces to a sink.
ghost use Rattle.std.specs.Prelude.{◌≡◌, false};
ghost use Rattle.outside.specs.Cause.{HasCause};
ghost use Rattle.outside.specs.Told.{IfTold};
ghost use Rattle.poad_files.specs.Delivery.{Hands};

use outside::{Sink, Wrote};

/// Writes all the bytes, and answers whether the sink took them. Else a write failed.
pub fn deliver<K: Sink>(sink: &mut K, bytes: &[u8]) -> bool
    ensures held { IfTold (K.held sink.old) (K.held sink.new) (Hands result bytes.now) }
    ensures failed { HasCause (K.write_faults sink.old) (K.write_faults sink.new) (result ≡ false) }
{
    let mut rest = bytes;
    while !rest.is_empty() {
        match sink.write(rest) {
            Wrote::Wrote(count) => rest = &rest[count..],
            Wrote::Failed => return false,
        }
    }
    true
}
