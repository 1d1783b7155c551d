//! The table of times.

use crate::call_plan::Plan;
use crate::fault::Fault;
use crate::{mutex_calls, shared_calls};
use std::alloc::Global;
use std::sync::Wait;
use std::thread::Threads;
use std::time::{Clock, CpuClock, Duration, Instant};

/// How many calls a row has in all.
const CALLS: u64 = 40_000;

/// What one run took of a call, in nanoseconds.
#[derive(Clone, Copy)]
struct Reading {
    wall: u64,
    cpu: u64,
}

/// Which core is timed.
#[derive(Clone, Copy)]
enum Kind {
    Shared,
    Mutex,
}

fn run<R: Threads + Wait + Sync>(
    rt: &R,
    alloc: Global,
    kind: Kind,
    plan: Plan,
) -> Result<u64, Fault> {
    match kind {
        Kind::Shared => shared_calls::count(rt, alloc, plan),
        Kind::Mutex => mutex_calls::count(rt, alloc, plan),
    }
}

/// The nanoseconds a call of so many.
fn of_call(passed: Duration, calls: u64) -> u64 {
    (passed.as_nanos().min(1 << 60) as u64) / calls.max(1)
}

fn timed<R: Threads + Wait + Sync + Clock + CpuClock>(
    rt: &R,
    alloc: Global,
    kind: Kind,
    plan: Plan,
) -> Result<Reading, Fault> {
    let start = Instant::now(rt)?;
    let before = rt.process_cpu_time()?;
    let calls = run(rt, alloc, kind, plan)?;
    let spent = rt.process_cpu_time()?.saturating_sub(before);
    Ok(Reading {
        wall: of_call(start.elapsed(rt)?, calls),
        cpu: of_call(spent, calls),
    })
}

/// Prints a row for each number of callers and workers.
pub fn print<R: Threads + Wait + Sync + Clock + CpuClock + Print>(
    rt: &R,
    alloc: Global,
) -> Result<(), Fault> {
    println!(rt;
        "callers | workers | shared core, ns a call (processor) | Mutex | processor time, times Mutex"
    )?;
    for (callers, workers) in [
        (1, 1),
        (1, 4),
        (4, 1),
        (4, 4),
        (8, 1),
        (8, 4),
        (16, 1),
        (16, 4),
        (64, 1),
        (64, 4),
    ] {
        let plan = Plan {
            callers,
            workers,
            calls: CALLS / u64::from(callers.max(1)),
        };
        let shared = timed(rt, alloc, Kind::Shared, plan)?;
        let mutex = timed(rt, alloc, Kind::Mutex, plan)?;
        let tenths = shared.cpu.saturating_mul(10) / mutex.cpu.max(1);
        println!(rt;
            "{callers} | {workers} | {} ({}) | {} ({}) | {}.{}",
            shared.wall,
            shared.cpu,
            mutex.wall,
            mutex.cpu,
            tenths / 10,
            tenths % 10
        )?;
    }
    Ok(())
}
