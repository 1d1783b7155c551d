//! One text read and printed, with the times.

use crate::timed_text::TimedText;
use anyhow::{Result, anyhow};
use poa_journal::{JournalFault, print, print_store, read, read_store};
use std::alloc::Global;
use std::time::{Clock, Duration, Instant};

/// What one text took; times are in microseconds.
#[derive(Clone, Copy)]
pub struct Timing {
    pub lines: u64,
    pub bytes: usize,
    /// Whether what was printed is what was read.
    pub same: bool,
    pub read: u64,
    pub print: u64,
}

impl Timing {
    /// Reads a text of at least so many lines and prints it.
    pub fn of<R: Clock>(rt: &R, alloc: Global, what: TimedText, lines: u64) -> Result<Timing> {
        let text = what.with(alloc, lines)?;
        match what {
            TimedText::Journal => Timing::of_journal(rt, alloc, text.as_slice(), lines),
            TimedText::Store => Timing::of_store(rt, alloc, text.as_slice(), lines),
        }
    }

    fn of_journal<R: Clock>(rt: &R, alloc: Global, text: &[u8], lines: u64) -> Result<Timing> {
        let start = Instant::now(rt)?;
        let journal = read(alloc, text).map_err(refused)?;
        let read_at = Instant::now(rt)?;
        let printed = print(alloc, &journal)?;
        let printed_at = Instant::now(rt)?;
        Ok(Timing {
            lines,
            bytes: text.len(),
            same: printed.as_slice() == text,
            read: micros(read_at.saturating_duration_since(start)),
            print: micros(printed_at.saturating_duration_since(read_at)),
        })
    }

    fn of_store<R: Clock>(rt: &R, alloc: Global, text: &[u8], lines: u64) -> Result<Timing> {
        let start = Instant::now(rt)?;
        let store = read_store(alloc, text).map_err(refused)?;
        let read_at = Instant::now(rt)?;
        let printed = print_store(alloc, &store)?;
        let printed_at = Instant::now(rt)?;
        Ok(Timing {
            lines,
            bytes: text.len(),
            same: printed.as_slice() == text,
            read: micros(read_at.saturating_duration_since(start)),
            print: micros(printed_at.saturating_duration_since(read_at)),
        })
    }

    /// Millions of bytes a second, at so many microseconds for the text.
    pub fn speed(&self, took: u64) -> u64 {
        self.bytes as u64 / took.max(1)
    }
}

fn micros(took: Duration) -> u64 {
    took.as_micros().min(1 << 50) as u64
}

fn refused(fault: JournalFault) -> anyhow::Error {
    match fault {
        JournalFault::BadLine { line } => anyhow!("line {line} is out of place"),
        JournalFault::WantMemory => anyhow!("want of memory"),
    }
}
