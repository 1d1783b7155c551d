//! Files that a command reads: their contents, configurations and scripts.
ghost use Rattle.std.specs.Prelude.{◌≡◌, Err, IfOk};
ghost use Rattle.outside.specs.Cause.{HasCause};
ghost use Rattle.outside.specs.Told.{IfTold};
ghost use Rattle.poa_policy.specs.Kept.{KeepsRules};
ghost use Rattle.poad_files.specs.Taking.{HoldsStill, Refuses, ReadsConfig, ReadsScript, TakesConfig, TakesFile, TakesScript};

use crate::status::Status;
use conf_toml::{ConfFault, read_config};
use outside::{Files, Taken};
use poa_base::{Bytes, Config};
use replay_script::{Script, ScriptFault, read_script};
use std::alloc::Global;

/// The bytes that a configuration has at most.
pub(crate) const CONFIG_LIMIT: u64 = 1 << 20;

/// The bytes that a script has at most.
const SCRIPT_LIMIT: u64 = 67_108_864;

/// The configuration in a file, or the status with which a command ends that can't take it.
pub fn take_config<F: Files>(alloc: Global, name: &str, files: &mut F) -> Result<Config, Status>
    ensures taken { TakesConfig name.now result (F.contents files.old) (F.contents files.new) }
    ensures rules { IfOk result KeepsRules }
    ensures contents { IfTold (F.contents files.old) (F.contents files.new) HoldsStill }
    ensures file_fault { HasCause (F.take_faults files.old) (F.take_faults files.new) (result ≡ Err Status.FileFault) }
    ensures no_file { HasCause (F.absents files.old) (F.absents files.new) (result ≡ Err Status.NoFile) }
    ensures too_long { HasCause (F.long_ones files.old) (F.long_ones files.new) (result ≡ Err Status.FileTooLong) }
    ensures puts { F.put_faults files.new ≡ F.put_faults files.old }
{
    match take(name, CONFIG_LIMIT, files) {
        Ok(content) => config_of(alloc, content.as_slice()),
        Err(status) => Err(status),
    }
}

/// The script in a file, or the status with which the command ends.
pub fn take_script<F: Files>(alloc: Global, name: &str, files: &mut F) -> Result<Script, Status>
    ensures taken { TakesScript name.now result (F.contents files.old) (F.contents files.new) }
    ensures contents { IfTold (F.contents files.old) (F.contents files.new) HoldsStill }
    ensures file_fault { HasCause (F.take_faults files.old) (F.take_faults files.new) (result ≡ Err Status.FileFault) }
    ensures no_file { HasCause (F.absents files.old) (F.absents files.new) (result ≡ Err Status.NoFile) }
    ensures too_long { HasCause (F.long_ones files.old) (F.long_ones files.new) (result ≡ Err Status.FileTooLong) }
{
    match take(name, SCRIPT_LIMIT, files) {
        Ok(content) => script_of(alloc, content.as_slice()),
        Err(status) => Err(status),
    }
}

/// The content of a file of at most so many bytes, or the status with which the command ends.
pub fn take<F: Files>(name: &str, limit: u64, files: &mut F) -> Result<Bytes, Status>
    ensures taken { TakesFile name.now limit result (F.contents files.old) (F.contents files.new) }
    ensures contents { IfTold (F.contents files.old) (F.contents files.new) HoldsStill }
    ensures file_fault { HasCause (F.take_faults files.old) (F.take_faults files.new) (result ≡ Err Status.FileFault) }
    ensures no_file { HasCause (F.absents files.old) (F.absents files.new) (result ≡ Err Status.NoFile) }
    ensures too_long { HasCause (F.long_ones files.old) (F.long_ones files.new) (result ≡ Err Status.FileTooLong) }
    ensures puts { F.put_faults files.new ≡ F.put_faults files.old }
{
    match files.take(name, limit) {
        Taken::Bytes(content) => Ok(content),
        Taken::Absent => Err(Status::NoFile),
        Taken::TooLong => Err(Status::FileTooLong),
        Taken::Failed => Err(Status::FileFault),
        Taken::WantMemory => Err(Status::WantMemory),
    }
}

/// The configuration of a text, or the status with which the command ends.
pub fn config_of(alloc: Global, content: &[u8]) -> Result<Config, Status>
    ensures read { ReadsConfig content.now result }
    ensures rules { IfOk result KeepsRules }
{
    match read_config(alloc, content) {
        Ok(config) => Ok(config),
        Err(fault) => Err(refusal(fault)),
    }
}

/// The status where a text is no configuration.
pub(crate) fn refusal(fault: ConfFault) -> Status
    ensures { Refuses result fault }
{
    match fault {
        ConfFault::WantMemory => Status::WantMemory,
        fault => Status::ConfigRefused(fault),
    }
}

// The script of a text.
fn script_of(alloc: Global, content: &[u8]) -> Result<Script, Status>
    ensures { ReadsScript content.now result }
{
    match read_script(alloc, content) {
        Ok(script) => Ok(script),
        Err(ScriptFault::BadLine { line }) => Err(Status::ScriptRefused { line }),
        Err(ScriptFault::WantMemory) => Err(Status::WantMemory),
    }
}
