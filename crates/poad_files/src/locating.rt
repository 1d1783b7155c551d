//! `loc`: a reference as a corbaloc text.
ghost use Rattle.std.specs.Prelude.{◌≡◌, ℕ, List, IfOk, MatchOption};
ghost use Rattle.outside.specs.Cause.{HasCause};
ghost use Rattle.ior_text.specs.Reference.{HasText};
ghost use Rattle.poad_files.specs.Locating.{IsLocLine, Locates};

use crate::delivery::deliver;
use crate::referring::read_written;
use crate::status::Status;
use ior_text::write_corbaloc;
use outside::Sink;
use poa_base::{Bytes, Ior, WantMemory};
use std::alloc::Global;

/// Prints the corbaloc text of the reference whose written form a text is, with the end of a line; or tells why the
/// text is none, or that the reference has no corbaloc text.
pub fn print_loc<K: Sink>(alloc: Global, text: &[u8], sink: &mut K) -> Status
    ensures locates { Locates result text.now (K.held sink.old) (K.held sink.new) }
    ensures written { HasCause (K.write_faults sink.old) (K.write_faults sink.new) (result ≡ Status.WriteFault) }
{
    let ior = match read_written(alloc, text) {
        Ok(ior) => ior,
        Err(status) => return status,
    };
    let Ok(found) = loc_line(alloc, &ior) else {
        return Status::WantMemory;
    };
    let Some(line) = found else {
        return Status::NoLoc;
    };
    if deliver(sink, line.as_slice()) {
        Status::Ok
    } else {
        Status::WriteFault
    }
}

// The line of a reference's corbaloc text; none where it has none.
fn loc_line(alloc: Global, ior: &Ior) -> Result<Option<Bytes>, WantMemory>
    ensures { IfOk result (λ found. MatchOption found ((text : List ℕ) → HasText ior.now text → ⊥) (IsLocLine ior.now)) }
{
    let Some(text) = write_corbaloc(alloc, ior)? else {
        return Ok(None);
    };
    let mut line = text.into_vec();
    line.extend_from_slice(b"\n")?;
    Ok(Some(Bytes::from_vec(line)))
}
