//! Plays `load 300 7` by the programs that compute from the definitions what comes next: the generator draws the calls,
//! workers take the turns that the definitions give, and connections are given the replies that they give. The six lines
//! are counted of that history, which is looked over by the same definitions; then `load` plays it on the core, and its
//! lines are compared.

mod calls;
mod collecting;
mod counts;
mod draw;
mod due;
mod generator;
mod legal;
mod play;
mod replies;

use crate::fault::Fault;
use crate::load::counts::Counts;
use crate::load::generator::Generator;
use crate::load::legal::put_legal;
use crate::load::play::Play;
use outside::MemSink;
use poad_files::Status;
use std::alloc::Global;

/// How many calls are drawn.
const CALLS: u32 = 300;

/// The number before the first draw.
const START: u64 = 7;

/// Prints the six lines of the slow programs, whether their history is legal, and whether the core's lines are the same.
pub fn compare(alloc: Global, out: &mut Vec<u8>) -> Result<(), Fault> {
    let slow = computed(alloc, out)?;
    let fast = loaded(alloc)?;
    if fast.as_slice() == slow.as_bytes() {
        out.extend_from_slice(b"the same\n")?;
    } else {
        out.extend_from_slice(&fast)?;
    }
    Ok(())
}

/// The six lines of the slow programs, printed, and behind them whether their history is legal.
fn computed(alloc: Global, out: &mut Vec<u8>) -> Result<String, Fault> {
    let mut play = Play::new(alloc)?;
    print_played(&mut play, out)
}

/// The same of a run before its first draw.
fn print_played(play: &mut Play, out: &mut Vec<u8>) -> Result<String, Fault> {
    let mut generator = Generator::new(START);
    for _ in 0..CALLS {
        play.draw(generator.draw())?;
    }
    play.end()?;
    let lines = Counts::of(play)?.lines(play.alloc, CALLS)?;
    out.extend_from_slice(lines.as_bytes())?;
    put_legal(play, out)?;
    Ok(lines)
}

/// What `load` writes.
fn loaded(alloc: Global) -> Result<Vec<u8>, Fault> {
    let mut sink = MemSink::new(alloc, Vec::new(alloc));
    match poad_load::load(alloc, CALLS, START, &mut sink) {
        Status::Ok => Ok(Vec::from_slice(alloc, sink.held())?),
        _ => Err(Fault::Load),
    }
}
