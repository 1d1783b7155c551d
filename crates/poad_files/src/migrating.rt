//! `migrate`: a reference with the tags of a configuration's adapters.
ghost use Rattle.std.specs.Prelude.{◌≡◌, IfOk};
ghost use Rattle.outside.specs.Cause.{HasCause};
ghost use Rattle.outside.specs.Told.{IfTold};
ghost use Rattle.poad_files.specs.Migrating.{IsMigratedLine, MigratesFile, MigratesText};
ghost use Rattle.poad_files.specs.Taking.{HoldsStill};

use crate::delivery::deliver;
use crate::migration::migrated;
use crate::referring::read_reference;
use crate::status::Status;
use crate::taking::take_config;
use ior_text::write_ior;
use outside::{Files, Sink};
use poa_base::{Bytes, Config, Ior, WantMemory};
use std::alloc::Global;

/// Prints the reference that a text is with the tags of the adapters that the configuration in the file has, in the
/// written form and with the end of a line; or tells why the file is no configuration, or the text no reference.
pub fn migrate_file<K: Sink, F: Files>(
    alloc: Global,
    name: &str,
    text: &[u8],
    files: &mut F,
    sink: &mut K,
) -> Status
    ensures migrates { MigratesFile name.now text.now result (F.contents files.old) (F.contents files.new) (K.held sink.old)
        (K.held sink.new) }
    ensures contents { IfTold (F.contents files.old) (F.contents files.new) HoldsStill }
    ensures file_fault { HasCause (F.take_faults files.old) (F.take_faults files.new) (result ≡ Status.FileFault) }
    ensures no_file { HasCause (F.absents files.old) (F.absents files.new) (result ≡ Status.NoFile) }
    ensures too_long { HasCause (F.long_ones files.old) (F.long_ones files.new) (result ≡ Status.FileTooLong) }
    ensures written { HasCause (K.write_faults sink.old) (K.write_faults sink.new) (result ≡ Status.WriteFault) }
{
    match take_config(alloc, name, files) {
        Ok(config) => migrate_text(alloc, &config, text, sink),
        Err(status) => status,
    }
}

// The same by a configuration.
fn migrate_text<K: Sink>(alloc: Global, config: &Config, text: &[u8], sink: &mut K) -> Status
    ensures migrates { MigratesText config.now result text.now (K.held sink.old) (K.held sink.new) }
    ensures written { HasCause (K.write_faults sink.old) (K.write_faults sink.new) (result ≡ Status.WriteFault) }
{
    let ior = match read_reference(alloc, text) {
        Ok(ior) => ior,
        Err(status) => return status,
    };
    let Ok(line) = migrated_line(alloc, config, &ior) else {
        return Status::WantMemory;
    };
    if deliver(sink, line.as_slice()) {
        Status::Ok
    } else {
        Status::WriteFault
    }
}

// The line of the migrated reference.
fn migrated_line(alloc: Global, config: &Config, ior: &Ior) -> Result<Bytes, WantMemory>
    ensures { IfOk result (λ line. IsMigratedLine config.now ior.now line) }
{
    let migrated = migrated(alloc, config, ior)?;
    let mut line = write_ior(alloc, &migrated)?.into_vec();
    line.extend_from_slice(b"\n")?;
    Ok(Bytes::from_vec(line))
}
