//! Plays scripts: calls arrive, workers take the turns that the definitions give, and connections are given
//! their replies. The entries are printed as a journal has them, with each reply below its Collect, and at
//! the end of a script whether its history is legal. A line `idle W` stands where a worker has nothing to do.

mod known;
mod play;
mod replies;

use crate::fault::Fault;
use crate::scripts::known::{SCRIPTS, Script};
use crate::scripts::play::Play;
use std::alloc::Global;

/// Prints what the scripts print.
pub fn play_all(alloc: Global, out: &mut Vec<u8>) -> Result<(), Fault> {
    for script in &SCRIPTS {
        play_one(alloc, script, out)?;
    }
    Ok(())
}

/// What a script prints, below its name.
fn play_one(alloc: Global, script: &Script, out: &mut Vec<u8>) -> Result<(), Fault> {
    out.extend_from_slice(b"# ")?;
    out.extend_from_slice(script.name)?;
    out.extend_from_slice(b"\n")?;
    let mut play = Play::new(alloc, script.configuration, out)?;
    for line in &text_words::parts(alloc, script.lines, b'\n')? {
        play.line(line, out)?;
    }
    play.finish(out)
}
