//! `load`: what it writes, and its status.
ghost use Rattle.std.specs.Prelude.{◌≡◌, ◌≤◌, IfOk};
ghost use Rattle.poa_policy.specs.Kept.{KeepsRules};
ghost use Rattle.outside.specs.Cause.{HasCause};
ghost use Rattle.poad_load.specs.Counts.{IsLoaded};
ghost use Rattle.poad_files.specs.Taking.{IsAccepted, ReadsAccepted};
ghost use Rattle.poad_load.specs.Writing.{LoadGives};
ghost use Rattle.poad_load.specs.declared.loading.TheConstants.{CONFIGURATION};

use crate::playing::{end, enter, play_draws};
use crate::printing::load_lines;
use crate::steps::names;
use outside::Sink;
use poa_base::limits::CALLS;
use poa_base::{Config, WantMemory};
use poad_files::{Status, config_of, deliver};
use replay_run::QuietPlay;
use std::alloc::Global;

/// The configuration on which a load is played: a servant activator that brings fresh registers.
pub const CONFIGURATION: &[u8] = b"root = \"active\"
[[adapter]]
path = \"/load\"
policies = [\"PERSISTENT\", \"USER_ID\", \"USE_SERVANT_MANAGER\"]
boot = true
[[adapter.rule]]
id = \"*\"
fresh = \"register\"
";

/// Plays so many draws of the generator that starts with this number, and writes the six lines of what came of them.
pub fn load<K: Sink>(alloc: Global, calls: u32, start: u64, sink: &mut K) -> Status
    requires { calls ≤ 200000 }
    ensures gives { LoadGives calls start result (K.held sink.old) (K.held sink.new) }
    ensures written { HasCause (K.write_faults sink.old) (K.write_faults sink.new)
        (result ≡ Status.WriteFault) }
{
    let config = match configuration(alloc) {
        Ok(config) => config,
        Err(status) => return status,
    };
    let Ok(text) = loaded(alloc, config, calls, start) else {
        return Status::WantMemory;
    };
    if deliver(sink, &text) {
        Status::Ok
    } else {
        Status::WriteFault
    }
}

/// The text of the program's configuration is one.
pub fn the_configuration_is_accepted()
    ensures { IsAccepted CONFIGURATION.now }
{}

/// The configuration on which a load is played.
fn configuration(alloc: Global) -> Result<Config, Status>
    ensures read { ReadsAccepted CONFIGURATION.now result }
    ensures rules { IfOk result KeepsRules }
{
    config_of(alloc, CONFIGURATION)
}

/// The lines of a load on this configuration.
fn loaded(alloc: Global, config: Config, calls: u32, start: u64) -> Result<Vec<u8>, WantMemory>
    requires rules { KeepsRules config }
    requires few { calls ≤ 200000 }
    ensures { IfOk result (λ text. IsLoaded config calls start text.items) }
{
    let names = names(alloc)?;
    let mut play = QuietPlay::new(alloc, config, CALLS, &names)?;
    enter(&mut play)?;
    play_draws(alloc, &mut play, calls, start)?;
    let mut messages = Vec::new(alloc);
    end(alloc, &mut play, &mut messages)?;
    let text = load_lines(alloc, calls, play.core(), &messages)?;
    Ok(text)
}
