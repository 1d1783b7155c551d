//! The reading and the printing of journals and of stores.

use crate::hundredths::Hundredths;
use crate::journal_timing::Timing;
use crate::timed_text::TimedText;
use anyhow::{Context, Result};
use std::alloc::Global;
use std::time::Clock;

/// The lines of the text that takes no time.
const SHORT: u64 = 1000;

/// How many lines the rows of the table have, each twice as many as the one before.
const ROWS: [u64; 4] = [250_000, 500_000, 1_000_000, 2_000_000];

/// Prints the table, or what came of one text of so many lines.
pub fn print<R>(rt: &R, alloc: Global, what: TimedText, lines: Option<String>) -> Result<()>
where
    R: Clock + Print,
{
    let Some(lines) = lines else {
        return measure(rt, alloc, what);
    };
    let lines = lines.parse::<u64>().context("no number of lines")?;
    once(rt, alloc, what, lines)
}

/// Prints what came of a short text.
pub fn count<R: Clock + Print>(rt: &R, alloc: Global, what: TimedText) -> Result<()> {
    once(rt, alloc, what, SHORT)
}

/// Reads and prints one text, and says what it had.
fn once<R: Clock + Print>(rt: &R, alloc: Global, what: TimedText, lines: u64) -> Result<()> {
    let timing = Timing::of(rt, alloc, what, lines)?;
    println!(rt;
        "{} {}, {} bytes, printed as read: {}",
        timing.lines,
        what.lines(),
        timing.bytes,
        timing.same
    )?;
    Ok(())
}

/// A row for each size, with the ratio to the time of half the size.
fn measure<R: Clock + Print>(rt: &R, alloc: Global, what: TimedText) -> Result<()> {
    println!(rt;
        "{} | MB | read, ms (MB/s) | ratio | print, ms (MB/s) | ratio",
        what.lines()
    )?;
    let mut before = Timing::of(rt, alloc, what, ROWS[0] / 2)?;
    for lines in ROWS {
        let now = Timing::of(rt, alloc, what, lines)?;
        println!(rt;
            "{} | {} | {} ({}) | {} | {} ({}) | {}",
            now.lines,
            Hundredths::of_quotient(now.bytes as u64, 1_000_000),
            now.read / 1000,
            now.speed(now.read),
            Hundredths::of_quotient(now.read, before.read),
            now.print / 1000,
            now.speed(now.print),
            Hundredths::of_quotient(now.print, before.print)
        )?;
        before = now;
    }
    Ok(())
}
