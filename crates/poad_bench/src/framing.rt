//! The table of times.

use crate::feeding::messages_of;
use crate::streams::{empty_fragments, open_requests, requests};
use crate::viewing::views_of;
use anyhow::Result;
use std::alloc::Global;
use std::time::{Clock, CpuClock};

/// How often each row is timed; the fastest is printed.
const TIMES: u32 = 5;

/// The pieces: the whole stream, what one read gives, and one byte.
const WHOLE: usize = 1 << 30;

const READ: usize = 4096;

const BYTE: usize = 1;

/// A stream and the length of its pieces.
#[derive(Clone, Copy)]
struct Row<'a> {
    name: &'a str,
    text: &'a [u8],
    piece: usize,
}

impl<'a> Row<'a> {
    fn new(name: &'a str, text: &'a [u8], piece: usize) -> Self {
        Row { name, text, piece }
    }
}

/// Prints how many messages each stream has, or how fast it is framed.
pub fn print<R: Clock + CpuClock + Print>(rt: &R, alloc: Global, measure: bool) -> Result<()> {
    let small = requests(alloc, 16_384, 52)?;
    let large = requests(alloc, 1, 1_048_564)?;
    let most = if measure { 1_048_576 } else { 1_024 };
    let half_open = open_requests(alloc, most / 2)?;
    let open = open_requests(alloc, most)?;
    let half_empty = empty_fragments(alloc, 50_000)?;
    let empty = empty_fragments(alloc, 100_000)?;
    let rows = [
        Row::new("64-byte messages, one piece", small.as_slice(), WHOLE),
        Row::new(
            "64-byte messages, 4096 bytes a piece",
            small.as_slice(),
            READ,
        ),
        Row::new("64-byte messages, byte by byte", small.as_slice(), BYTE),
        Row::new("1 MiB message, one piece", large.as_slice(), WHOLE),
        Row::new("1 MiB message, 4096 bytes a piece", large.as_slice(), READ),
        Row::new("1 MiB message, byte by byte", large.as_slice(), BYTE),
        Row::new("half as many open messages", half_open.as_slice(), READ),
        Row::new("open messages of 16 bytes", open.as_slice(), READ),
        Row::new("50,000 empty fragments", half_empty.as_slice(), READ),
        Row::new("100,000 empty fragments", empty.as_slice(), READ),
    ];
    for row in &rows {
        print_row(rt, alloc, row, measure)?;
    }
    print_views(rt, alloc, measure)
}

/// Prints how many of a thousand views of a request lend its operation, or how fast a million are made.
fn print_views<R: Clock + CpuClock + Print>(rt: &R, alloc: Global, measure: bool) -> Result<()> {
    if !measure {
        let views = views_of(alloc, 1000)?;
        println!(rt; "views of a request: {views}")?;
        return Ok(());
    }
    let mut best = u64::MAX;
    for _ in 0..TIMES {
        best = best.min(timed_views(rt, alloc)?);
    }
    let speed = 1_000_000_000_000_000 / best.max(1);
    let micros = best / 1000;
    println!(rt; "1,000,000 views of a 72-byte request: {micros} us, {speed} a second")?;
    Ok(())
}

/// Views the request a million times.
fn timed_views<R: Clock + CpuClock>(rt: &R, alloc: Global) -> Result<u64> {
    let before = rt.process_cpu_time()?;
    views_of(alloc, 1_000_000)?;
    let spent = rt.process_cpu_time()?.saturating_sub(before);
    Ok(spent.as_nanos().min(1 << 50) as u64)
}

/// Prints how many messages the row's stream has, or how fast it is framed.
fn print_row<R: Clock + CpuClock + Print>(
    rt: &R,
    alloc: Global,
    row: &Row<'_>,
    measure: bool,
) -> Result<()> {
    let name = row.name;
    if !measure {
        let messages = messages_of(alloc, row.text, row.piece)?;
        println!(rt; "{name}: {messages}")?;
        return Ok(());
    }
    let nanos = fastest(rt, alloc, row)?;
    let bytes = row.text.len() as u64;
    let speed = bytes.saturating_mul(1000) / nanos.max(1);
    let micros = nanos / 1000;
    println!(rt; "{name}: {bytes} bytes, {micros} us, {speed} MB/s")?;
    Ok(())
}

/// The processor time in nanoseconds of the fastest of several runs.
fn fastest<R: Clock + CpuClock>(rt: &R, alloc: Global, row: &Row<'_>) -> Result<u64> {
    let mut best = u64::MAX;
    for _ in 0..TIMES {
        best = best.min(timed(rt, alloc, row)?);
    }
    Ok(best)
}

/// Frames the row's stream once.
fn timed<R: Clock + CpuClock>(rt: &R, alloc: Global, row: &Row<'_>) -> Result<u64> {
    let before = rt.process_cpu_time()?;
    messages_of(alloc, row.text, row.piece)?;
    let spent = rt.process_cpu_time()?.saturating_sub(before);
    Ok(spent.as_nanos().min(1 << 50) as u64)
}
