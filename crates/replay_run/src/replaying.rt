//! Scripts played.
ghost use Rattle.std.specs.Prelude.{◌≡◌, ◌≤◌, IfOk, OnOk};
ghost use Rattle.std.specs.Option.{option_or};
ghost use Rattle.poa_history.specs.Legal.{IsLegal};
ghost use Rattle.poa_history.specs.Lifetime.{HasLifetime};
ghost use Rattle.history_laws.specs.Lasting.{KeepsUpdates, LeavesNothing};
ghost use Rattle.poa_history.specs.Runs.{IsRun};
ghost use Rattle.poa_history.specs.Life.{opened};
ghost use Rattle.poa_core.specs.Answers.{unadmitted};
ghost use Rattle.poa_policy.specs.Kept.{KeepsRules};
ghost use Rattle.replay_run.specs.Playing.{IsPlayed, Plays, PlaysAll};
ghost use Rattle.replay_run.specs.Keeping.{Keeps, Shows, IsAtFirst};

use crate::asking::{key_bytes, request};
use crate::channel::{Channel, channels_of};
use crate::finishing::finish;
use crate::line::Line;
use crate::played::Played;
use crate::player::Player;
use crate::talking::take_line;
use history_laws::opening_laws::collecting_changes_no_turn;
use poa_base::{Bytes, Config, Store, WantMemory};
use poa_core::Core;
use replay_script::{Script, ScriptStep, Step};
use std::alloc::Global;

/// Plays a script on a run of a configuration that takes so many arrivals, from 1 to 4,000,000, with nothing stored
/// before.
///
/// The steps come one behind the other. Then the workers 0 to 15 run until none has anything to do, and the
/// replies of each connection are collected. A connection enters at its first line. Its bytes are read message by
/// message; behind a message that can't be read or that isn't for a server no byte is read.
///
/// `held` counts the calls that are unadmitted at the end. `full` has the numbers of calls and of bytes that there
/// were when the first call was refused for the limits of the run, or, where none was, the first connection.
pub fn replay(
    alloc: Global,
    config: Config,
    limit: u64,
    script: &Script,
) -> Result<Played, WantMemory>
    requires rules { KeepsRules config }
    requires limit { (1 ≤ limit) × (limit ≤ 4000000) }
    ensures { IfOk result (λ played. IsPlayed config limit script.now played) }
{
    collecting_changes_no_turn();
    let mut player = player_of(alloc, config, limit)?;
    let mut channels = channels_of(alloc, script.connections.as_slice())?;
    play_all(alloc, &mut player, &mut channels, script.steps.as_slice())?;
    finish(alloc, &mut player, &channels)?;
    Ok(result_of(player))
}

/// A player before the first line.
pub(crate) fn player_of(alloc: Global, config: Config, limit: u64) -> Result<Player, WantMemory>
    requires rules { KeepsRules config }
    requires limit { (1 ≤ limit) × (limit ≤ 4000000) }
    ensures { IfOk result (λ player. IsAtFirst config limit player) }
{
    let run = config.run;
    let core = Core::new(alloc, config, run, Store::new(alloc), limit)?;
    Ok(Player {
        core,
        printed: Vec::new(alloc),
        filled: None,
        turned_away: None,
    })
}

// What came of a script.
fn result_of(player: Player) -> Played
    ensures printed { result.printed ≡ player.printed.items }
    ensures held { result.held ≡ unadmitted player.core.history }
    ensures full { result.full ≡ option_or player.filled player.turned_away }
    ensures legal { IsLegal player.core.config player.core.run player.core.limit
        player.core.history }
    ensures runs { IsRun player.core.config player.core.run player.core.limit player.core.history }
    ensures lifetime { HasLifetime player.core.config player.core.run player.core.history }
    ensures undone { LeavesNothing player.core.config player.core.run player.core.history }
    ensures updates { KeepsUpdates player.core.config player.core.run (opened player.core)
        player.core.history }
{
    player.core.keeps_laws();
    let Player {
        core,
        printed,
        filled,
        turned_away,
    } = player;
    Played {
        printed: Bytes::from_vec(printed),
        held: core.unadmitted(),
        full: filled.or(turned_away),
    }
}

// Plays steps one behind the other.
fn play_all(
    alloc: Global,
    player: &mut Player,
    channels: &mut Vec<Channel>,
    steps: &[ScriptStep],
) -> Result<(), WantMemory>
    requires { Keeps player.old channels.old.items }
    ensures shows { OnOk result
        (Shows (PlaysAll steps.now) player.old player.new channels.old.items channels.new.items) }
    ensures keeps { OnOk result (Keeps player.new channels.new.items) }
{
    for step in steps {
        play(alloc, player, channels, &step.step)?;
    }
    Ok(())
}

/// Plays a step.
pub(crate) fn play(
    alloc: Global,
    player: &mut Player,
    channels: &mut Vec<Channel>,
    step: &Step,
) -> Result<(), WantMemory>
    requires { Keeps player.old channels.old.items }
    ensures shows { OnOk result
        (Shows (Plays step.now) player.old player.new channels.old.items channels.new.items) }
    ensures keeps { OnOk result (Keeps player.new channels.new.items) }
{
    match step {
        Step::Ask {
            connection,
            id,
            path,
            oid,
            operation,
            argument,
        } => {
            let key = key_bytes(alloc, &player.core, path, oid)?;
            let bytes = request(alloc, *id, key, operation, argument)?;
            let line = Line::Bytes(bytes.as_slice());
            take_line(alloc, player, channels, *connection, line)
        }
        Step::Feed { connection, bytes } => {
            let line = Line::Bytes(bytes.as_slice());
            take_line(alloc, player, channels, *connection, line)
        }
        Step::End { connection } => take_line(alloc, player, channels, *connection, Line::End),
        Step::Admin { connection, words } => {
            let line = Line::Words(words.as_slice());
            take_line(alloc, player, channels, *connection, line)
        }
        Step::Step { worker } => player.step(*worker),
        Step::Run { worker } => player.run(*worker),
        Step::Collect { connection } => {
            take_line(alloc, player, channels, *connection, Line::Collect)
        }
        Step::Store => player.show_store(alloc),
        Step::Journal => player.show_journal(alloc),
    }
}
