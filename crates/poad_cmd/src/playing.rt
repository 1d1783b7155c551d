//! `replay`: a script played on a configuration.
ghost use Rattle.std.specs.Prelude.{◌≡◌};
ghost use Rattle.outside.specs.Cause.{HasCause};
ghost use Rattle.outside.specs.Told.{IfTold};
ghost use Rattle.poa_policy.specs.Kept.{KeepsRules};
ghost use Rattle.poad_files.specs.Taking.{HoldsStill};
ghost use Rattle.poad_cmd.specs.Playing.{EndsPlay, PlaysFiles, PlaysScript};

use outside::{Files, Sink};
use poa_base::Config;
use poa_base::limits::CALLS;
use poad_files::{Status, deliver, take_config, take_script};
use replay_run::{Full, replay};
use replay_script::Script;
use std::alloc::Global;

/// Plays the script in one file on the configuration in another, and writes what it prints.
pub(crate) fn play_files<K: Sink, F: Files>(
    alloc: Global,
    file: &str,
    script: &str,
    files: &mut F,
    sink: &mut K,
) -> Status
    ensures plays { PlaysFiles file.now script.now result (F.contents files.old) (F.contents files.new) (K.held sink.old)
        (K.held sink.new) }
    ensures contents { IfTold (F.contents files.old) (F.contents files.new) HoldsStill }
    ensures file_fault { HasCause (F.take_faults files.old) (F.take_faults files.new) (result ≡ Status.FileFault) }
    ensures no_file { HasCause (F.absents files.old) (F.absents files.new) (result ≡ Status.NoFile) }
    ensures too_long { HasCause (F.long_ones files.old) (F.long_ones files.new) (result ≡ Status.FileTooLong) }
    ensures written { HasCause (K.write_faults sink.old) (K.write_faults sink.new) (result ≡ Status.WriteFault) }
{
    let config = match take_config(alloc, file, files) {
        Ok(config) => config,
        Err(status) => return status,
    };
    match take_script(alloc, script, files) {
        Ok(script) => play(alloc, config, &script, sink),
        Err(status) => status,
    }
}

// Plays a script, and writes what it prints.
fn play<K: Sink>(alloc: Global, config: Config, script: &Script, sink: &mut K) -> Status
    requires rules { KeepsRules config }
    ensures plays { PlaysScript config script.now result (K.held sink.old) (K.held sink.new) }
    ensures written { HasCause (K.write_faults sink.old) (K.write_faults sink.new) (result ≡ Status.WriteFault) }
{
    let Ok(played) = replay(alloc, config, CALLS, script) else {
        return Status::WantMemory;
    };
    if !deliver(sink, played.printed.as_slice()) {
        return Status::WriteFault;
    }
    status_of(played.held, played.full)
}

// The status where a script was played to its end.
fn status_of(held: u64, full: Option<Full>) -> Status
    ensures { EndsPlay result held full }
{
    match full {
        Some(Full { arrivals, bytes }) => Status::Limit { arrivals, bytes },
        None => {
            match held {
                0 => Status::Ok,
                count => Status::Held { count },
            }
        }
    }
}
