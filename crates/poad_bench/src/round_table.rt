//! The table of times.

use crate::busy::steps_a_millisecond;
use crate::hundredths::Hundredths;
use crate::round_plan::Plan;
use crate::{idle, mutex_rounds, seat_rounds};
use anyhow::Result;
use std::alloc::{AllocError, Global};
use std::sync::Wait;
use std::thread::Threads;
use std::time::{Clock, CpuClock, Duration, Instant};

/// How often each row is timed; the middle one is printed.
const TIMES: u32 = 5;

/// The time of one round, in hundredths of a nanosecond.
#[derive(Clone, Copy, PartialEq, Eq, PartialOrd, Ord)]
struct Reading {
    wall: u64,
    cpu: u64,
}

/// Which lock is timed.
#[derive(Clone, Copy)]
enum Kind {
    Seat,
    Mutex,
}

fn run<R: Threads + Wait + Sync>(
    rt: &R,
    alloc: Global,
    kind: Kind,
    plan: Plan,
) -> Result<u64, AllocError> {
    match kind {
        Kind::Seat => seat_rounds::count(rt, alloc, plan),
        Kind::Mutex => mutex_rounds::count(rt, alloc, plan),
    }
}

/// The time of a round of all threads, where so much passed.
fn of_round(passed: Duration, plan: Plan) -> u64 {
    let nanos = passed.as_nanos().min(1 << 50) as u64;
    let rounds = (plan.threads as u64).saturating_mul(plan.rounds).max(1);
    nanos * 100 / rounds
}

fn timed<R: Threads + Wait + Sync + Clock + CpuClock>(
    rt: &R,
    alloc: Global,
    kind: Kind,
    plan: Plan,
) -> Result<Reading> {
    let start = Instant::now(rt)?;
    let before = rt.process_cpu_time()?;
    run(rt, alloc, kind, plan)?;
    let spent = rt.process_cpu_time()?.saturating_sub(before);
    let passed = start.elapsed(rt)?;
    Ok(Reading {
        wall: of_round(passed, plan),
        cpu: of_round(spent, plan),
    })
}

/// The middle one of the readings.
fn middle(readings: &[Reading]) -> Reading {
    readings
        .get(readings.len() / 2)
        .copied()
        .unwrap_or(Reading { wall: 1, cpu: 1 })
}

/// Both locks by turns, and the middle reading of each.
fn both<R: Threads + Wait + Sync + Clock + CpuClock>(
    rt: &R,
    alloc: Global,
    plan: Plan,
) -> Result<(Reading, Reading)> {
    let mut seat = Vec::new(alloc);
    let mut mutex = Vec::new(alloc);
    for _ in 0..TIMES {
        seat.push(timed(rt, alloc, Kind::Seat, plan)?)?;
        mutex.push(timed(rt, alloc, Kind::Mutex, plan)?)?;
    }
    seat.sort()?;
    mutex.sort()?;
    Ok((middle(seat.as_slice()), middle(mutex.as_slice())))
}

/// Prints the ratios, for one thread alone and for more that work inside and outside.
pub fn print<R: Threads + Wait + Sync + Clock + CpuClock + Print>(
    rt: &R,
    alloc: Global,
) -> Result<()> {
    let steps = steps_a_millisecond(rt)?;
    let (inside, outside) = (steps / 5000, steps / 1000);
    let rows = [
        (1, 4_000_000, 0, 0),
        (2, 100_000, inside, outside),
        (4, 100_000, inside, outside),
        (16, 10_000, inside, outside),
        (64, 3_000, inside, outside),
        (64, 3_000, 0, 0),
    ];
    println!(rt;
        "threads | work inside/outside | seat lock, ns a round (processor) | Mutex | ratio (processor)"
    )?;
    for (threads, rounds, inside, outside) in rows {
        let plan = Plan {
            threads,
            rounds,
            inside,
            outside,
        };
        let (seat, mutex) = both(rt, alloc, plan)?;
        let work = if inside == 0 { "none" } else { "0.2/1 us" };
        let wall = Hundredths::of_quotient(seat.wall, mutex.wall);
        let cpu = Hundredths::of_quotient(seat.cpu, mutex.cpu);
        println!(rt;
            "{threads} | {work} | {} ({}) | {} ({}) | {wall} ({cpu})",
            Hundredths(seat.wall),
            Hundredths(seat.cpu),
            Hundredths(mutex.wall),
            Hundredths(mutex.cpu)
        )?;
    }
    let (spent, passed) = idle::sleep_a_second(rt, alloc)?;
    println!(rt; "idle bell | {spent} us of processor time in {passed} us")?;
    Ok(())
}
