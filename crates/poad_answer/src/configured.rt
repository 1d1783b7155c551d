//! `answer` by a configuration that is named, or by the built-in one.
ghost use Rattle.std.specs.Prelude.{◌≡◌, Err, IfOk, false, option_map};
ghost use Rattle.outside.specs.Cause.{HasCause};
ghost use Rattle.outside.specs.Told.{IfTold};
ghost use Rattle.poa_policy.specs.Kept.{KeepsRules};
ghost use Rattle.poad_files.specs.Taking.{HoldsStill, IsAccepted, ReadsAccepted};
ghost use Rattle.poad_answer.specs.Answering.{AnswersBy, NamesConfig};
ghost use Rattle.poad_answer.specs.declared.configured.TheConstants.{BUILT_IN};

use crate::answering::answer;
use outside::{Files, Sink, Source};
use poa_base::Config;
use poad_files::{Status, config_of, take_config};
use std::alloc::Global;

/// The configuration that serves where no file is named: a register in the root adapter.
pub const BUILT_IN: &[u8] = b"root = \"active\"
[[servant]]
name = \"counter\"
kind = \"register\"
[[object]]
adapter = \"/\"
servant = \"counter\"
";

/// Serves the source by the configuration in the file of this name, or by the built-in one.
pub fn answer_by<S: Source, K: Sink, F: Files>(
    alloc: Global,
    name: Option<&str>,
    files: &mut F,
    source: &mut S,
    sink: &mut K,
) -> Status
    requires patient { S.is_waiting source.old ≡ false }
    ensures answers { AnswersBy (option_map (λ n. n.now) name.entry) result (F.contents files.old)
        (F.contents files.new)
        (S.left source.old) (S.left source.new) (K.held sink.old) (K.held sink.new) }
    ensures contents { IfTold (F.contents files.old) (F.contents files.new) HoldsStill }
    ensures file_fault { HasCause (F.take_faults files.old) (F.take_faults files.new)
        (result ≡ Status.FileFault) }
    ensures no_file { HasCause (F.absents files.old) (F.absents files.new)
        (result ≡ Status.NoFile) }
    ensures too_long { HasCause (F.long_ones files.old) (F.long_ones files.new)
        (result ≡ Status.FileTooLong) }
    ensures read { HasCause (S.read_faults source.old) (S.read_faults source.new)
        (result ≡ Status.ReadFault) }
    ensures written { HasCause (K.write_faults sink.old) (K.write_faults sink.new)
        (result ≡ Status.WriteFault) }
{
    match named_config(alloc, name, files) {
        Ok(config) => answer(alloc, config, source, sink),
        Err(status) => status,
    }
}

/// The configuration in the file of this name, or the built-in one.
fn named_config<F: Files>(
    alloc: Global,
    name: Option<&str>,
    files: &mut F,
) -> Result<Config, Status>
    ensures named { NamesConfig (option_map (λ n. n.now) name.entry) result (F.contents files.old)
        (F.contents files.new) }
    ensures rules { IfOk result KeepsRules }
    ensures contents { IfTold (F.contents files.old) (F.contents files.new) HoldsStill }
    ensures file_fault { HasCause (F.take_faults files.old) (F.take_faults files.new)
        (result ≡ Err Status.FileFault) }
    ensures no_file { HasCause (F.absents files.old) (F.absents files.new)
        (result ≡ Err Status.NoFile) }
    ensures too_long { HasCause (F.long_ones files.old) (F.long_ones files.new)
        (result ≡ Err Status.FileTooLong) }
{
    match name {
        Some(name) => take_config(alloc, name, files),
        None => built_in(alloc),
    }
}

/// The built-in text is a configuration.
pub fn the_built_in_text_is_accepted()
    ensures { IsAccepted BUILT_IN.now }
{}

/// The built-in configuration.
fn built_in(alloc: Global) -> Result<Config, Status>
    ensures read { ReadsAccepted BUILT_IN.now result }
    ensures rules { IfOk result KeepsRules }
{
    config_of(alloc, BUILT_IN)
}
