//! Figures, and the first word says of what: the `framing` of streams and the viewing of a request; `journals` and `stores`, read
//! and printed; `calls` over the shared core, and `rounds` of its lock, each beside std's `Mutex` in the same run. Its table is
//! printed. A number may follow `journals` and `stores`: then one of so many entries or rows is read and printed.
//!
//! With no word each is run once, quickly, and what it counted is printed, which is the same everywhere.
#![tactic(auto)]

mod asking;
mod busy;
mod call_plan;
mod call_table;
mod calls;
mod fault;
mod feeding;
mod framing;
mod guarded;
mod hundredths;
mod idle;
mod journal_text;
mod journal_timing;
mod journals;
mod mutex_calls;
mod mutex_rounds;
mod round_plan;
mod round_table;
mod rounds;
mod seat_rounds;
mod shared_calls;
mod store_text;
mod streams;
mod tally;
mod timed_text;
mod viewing;

use anyhow::{Result, anyhow};
use std::alloc::Global;
use std::env;
use std::sync::Wait;
use std::thread::Threads;
use std::time::{Clock, CpuClock};
use timed_text::TimedText;

fn main(rt: HostRuntime) -> Result<()> {
    let alloc = rt.alloc();
    let mut words = env::args(&rt)?.skip(1);
    let Some(word) = words.next() else {
        return count_all(&rt, alloc);
    };
    match word.as_str() {
        "framing" => framing::print(&rt, alloc, true),
        "journals" => journals::print(&rt, alloc, TimedText::Journal, words.next()),
        "stores" => journals::print(&rt, alloc, TimedText::Store, words.next()),
        "calls" => calls::print(&rt, alloc),
        "rounds" => round_table::print(&rt, alloc),
        _ => Err(anyhow!("framing, journals, stores, calls or rounds")),
    }
}

/// Runs each once, quickly.
fn count_all<R>(rt: &R, alloc: Global) -> Result<()>
where
    R: Threads + Wait + Sync + Clock + CpuClock + Print,
{
    framing::print(rt, alloc, false)?;
    journals::count(rt, alloc, TimedText::Journal)?;
    journals::count(rt, alloc, TimedText::Store)?;
    calls::count(rt, alloc)?;
    rounds::count(rt, alloc)
}
