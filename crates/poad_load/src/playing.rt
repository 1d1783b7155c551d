//! The draws, played on a run.
ghost use Rattle.std.specs.Prelude.{◌≡◌, ◌≤◌, ◌+◌, if◌then◌else◌, OnOk};
ghost use Rattle.replay_run.specs.Quiet.{IsInPlay};
ghost use Rattle.poad_load.specs.Schedule.{is_command};
ghost use Rattle.poad_load.specs.Loading.{Ends, EntersFirst, Finishes, PlaysDraw, PlaysDraws, TakesTurns};
ghost use Rattle.poad_load.specs.Played.{Collected, Played};

use crate::draw::Draw;
use crate::generator::Generator;
use crate::steps::{CONNECTIONS, call_step, shutdown};
use poa_base::WantMemory;
use replay_run::QuietPlay;
use replay_script::Step;
use std::alloc::Global;

/// The connections enter.
pub(crate) fn enter(play: &mut QuietPlay) -> Result<(), WantMemory>
    requires { IsInPlay play.old }
    ensures { OnOk result (Played (EntersFirst 5) play.old play.new) }
{
    for place in 0..CONNECTIONS {
        play.play(&Step::Collect { connection: place })?;
    }
    Ok(())
}

/// So many draws, of a generator that starts with this number, one behind the other.
pub(crate) fn play_draws(
    alloc: Global,
    play: &mut QuietPlay,
    count: u32,
    start: u64,
) -> Result<(), WantMemory>
    requires few { count ≤ 200000 }
    requires in_play { IsInPlay play.old }
    ensures { OnOk result (Played (PlaysDraws start count) play.old play.new) }
{
    let mut generator = Generator { number: start };
    let mut id = 1;
    for done in 0..count {
        let draw = generator.draw();
        play_draw(alloc, play, id, draw)?;
        id = id_behind(id, draw);
    }
    Ok(())
}

// The id of the next request behind a draw.
fn id_behind(id: u32, draw: Draw) -> u32
    requires { id ≤ 200000 }
    ensures next { result ≡ (if is_command draw.bits then id else id + 1) }
    ensures most { result ≤ id + 1 }
{
    if draw.is_command() { id } else { id + 1 }
}

// A call comes, and then a worker takes turns.
fn play_draw(alloc: Global, play: &mut QuietPlay, id: u32, draw: Draw) -> Result<(), WantMemory>
    requires { IsInPlay play.old }
    ensures { OnOk result (Played (PlaysDraw id draw.bits) play.old play.new) }
{
    let step = call_step(alloc, id, draw)?;
    play.play(&step)?;
    take_turns(play, draw.turns(), draw.worker())?;
    Ok(())
}

// So many turns of a worker.
fn take_turns(play: &mut QuietPlay, count: u64, worker: u32) -> Result<(), WantMemory>
    requires { IsInPlay play.old }
    ensures { OnOk result (Played (TakesTurns count worker) play.old play.new) }
{
    for done in 0..count {
        play.play(&Step::Step { worker })?;
    }
    Ok(())
}

/// The run comes to its end: all workers run and the replies are collected, a `shutdown` arrives, and the same again.
/// The messages of the replies come behind others.
pub(crate) fn end(
    alloc: Global,
    play: &mut QuietPlay,
    messages: &mut Vec<u8>,
) -> Result<(), WantMemory>
    requires { IsInPlay play.old }
    ensures { OnOk result (Collected Ends messages.old.items messages.new.items play.old play.new) }
{
    finish(play, messages)?;
    let step = shutdown(alloc)?;
    play.play(&step)?;
    finish(play, messages)?;
    Ok(())
}

// All workers run until none has anything to do, and then the replies are collected.
fn finish(play: &mut QuietPlay, messages: &mut Vec<u8>) -> Result<(), WantMemory>
    requires { IsInPlay play.old }
    ensures { OnOk result
        (Collected Finishes messages.old.items messages.new.items play.old play.new) }
{
    play.settle()?;
    play.gather(messages)?;
    Ok(())
}
