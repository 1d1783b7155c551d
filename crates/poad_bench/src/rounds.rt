//! Rounds of the seat lock and of std's `Mutex`, counted.

use crate::round_plan::Plan;
use crate::{mutex_rounds, seat_rounds};
use anyhow::Result;
use std::alloc::Global;
use std::sync::Wait;
use std::thread::Threads;

/// A run that takes no time, for the count.
const QUICK: Plan = Plan {
    threads: 4,
    rounds: 1000,
    inside: 0,
    outside: 0,
};

/// Runs both once, quickly, and prints what they counted.
pub fn count<R: Threads + Wait + Sync + Print>(rt: &R, alloc: Global) -> Result<()> {
    let seated = seat_rounds::count(rt, alloc, QUICK)?;
    let mutexed = mutex_rounds::count(rt, alloc, QUICK)?;
    println!(rt; "seat lock: {seated} counted")?;
    println!(rt; "Mutex: {mutexed} counted")?;
    Ok(())
}
