//! Calls over one shared core beside a core under std's `Mutex`: each caller asks, makes the turns of a worker until it has
//! its reply, and asks again.

use crate::call_plan::Plan;
use crate::{call_table, mutex_calls, shared_calls};
use anyhow::{Context, Result};
use std::alloc::Global;
use std::sync::Wait;
use std::thread::Threads;
use std::time::{Clock, CpuClock};

/// A run that takes no time, for the count.
const QUICK: Plan = Plan {
    callers: 4,
    workers: 2,
    calls: 25,
};

/// Prints the table of their times.
pub fn print<R>(rt: &R, alloc: Global) -> Result<()>
where
    R: Threads + Wait + Sync + Clock + CpuClock + Print,
{
    call_table::print(rt, alloc).ok().context("no table")
}

/// Runs both once, quickly, and prints how many calls were answered.
pub fn count<R: Threads + Wait + Sync + Print>(rt: &R, alloc: Global) -> Result<()> {
    let shared = shared_calls::count(rt, alloc, QUICK).ok();
    let shared = shared.context("the shared core isn't called")?;
    let mutexed = mutex_calls::count(rt, alloc, QUICK).ok();
    let mutexed = mutexed.context("the core under the Mutex isn't called")?;
    println!(rt; "shared core: {shared} answered")?;
    println!(rt; "Mutex: {mutexed} answered")?;
    Ok(())
}
