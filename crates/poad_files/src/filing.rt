//! What is printed of a configuration in a file.
ghost use Rattle.std.specs.Prelude.{◌≡◌, Err};
ghost use Rattle.outside.specs.Cause.{HasCause};
ghost use Rattle.outside.specs.Told.{IfTold};
ghost use Rattle.conf_fields.specs.declared.ConfFault.TheVariants as fault;
ghost use Rattle.poad_files.specs.Filing.{Filed, Printed};
ghost use Rattle.poad_files.specs.Taking.{HoldsStill};

use crate::delivery::deliver;
use crate::printing::{Asked, print_config};
use crate::status::Status;
use crate::taking::{CONFIG_LIMIT, refusal, take};
use outside::{Files, Sink};
use std::alloc::Global;

/// Prints what is asked of the configuration in the file, or tells why it is none.
pub fn print_file<K: Sink, F: Files>(
    alloc: Global,
    asked: Asked,
    name: &str,
    files: &mut F,
    sink: &mut K,
) -> Status
    ensures filed { Filed asked name.now result (F.contents files.old) (F.contents files.new) (K.held sink.old) (K.held sink.new) }
    ensures contents { IfTold (F.contents files.old) (F.contents files.new) HoldsStill }
    ensures file_fault { HasCause (F.take_faults files.old) (F.take_faults files.new) (result ≡ Status.FileFault) }
    ensures no_file { HasCause (F.absents files.old) (F.absents files.new) (result ≡ Status.NoFile) }
    ensures too_long { HasCause (F.long_ones files.old) (F.long_ones files.new) (result ≡ Status.FileTooLong) }
    ensures written { HasCause (K.write_faults sink.old) (K.write_faults sink.new) (result ≡ Status.WriteFault) }
{
    match take(name, CONFIG_LIMIT, files) {
        Ok(content) => print_content(alloc, asked, content.as_slice(), sink),
        Err(status) => status,
    }
}

// The same of a file's content.
fn print_content<K: Sink>(alloc: Global, asked: Asked, content: &[u8], sink: &mut K) -> Status
    ensures printed { Printed asked content.now result (K.held sink.old) (K.held sink.new) }
    ensures written { HasCause (K.write_faults sink.old) (K.write_faults sink.new) (result ≡ Status.WriteFault) }
{
    let text = match print_config(alloc, asked, content) {
        Ok(text) => text,
        Err(fault) => return refusal(fault),
    };
    if deliver(sink, text.as_slice()) {
        Status::Ok
    } else {
        Status::WriteFault
    }
}
