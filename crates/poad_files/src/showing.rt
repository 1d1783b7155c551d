//! `show`: a reference in a form for people.
ghost use Rattle.std.specs.Prelude.{◌≡◌};
ghost use Rattle.outside.specs.Cause.{HasCause};
ghost use Rattle.poad_files.specs.Showing.{Tells};

use crate::delivery::deliver;
use crate::reference::show;
use crate::referring::read_reference;
use crate::status::Status;
use outside::Sink;
use std::alloc::Global;

/// Prints the reference that a text is, its type id and its profiles, or tells why it is none.
pub fn show_text<K: Sink>(alloc: Global, text: &[u8], sink: &mut K) -> Status
    ensures tells { Tells result text.now (K.held sink.old) (K.held sink.new) }
    ensures written { HasCause (K.write_faults sink.old) (K.write_faults sink.new) (result ≡ Status.WriteFault) }
{
    let ior = match read_reference(alloc, text) {
        Ok(ior) => ior,
        Err(status) => return status,
    };
    let Ok(printed) = show(alloc, &ior) else {
        return Status::WantMemory;
    };
    if deliver(sink, printed.as_slice()) {
        Status::Ok
    } else {
        Status::WriteFault
    }
}
