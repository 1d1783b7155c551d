//! The same rounds over std's `Mutex`.

use crate::busy::busy;
use crate::round_plan::Plan;
use crate::tally::Tally;
use std::alloc::{AllocError, Global};
use std::sync::{Arc, Barrier, Mutex, Wait};
use std::thread;
use std::thread::Threads;

/// What one thread is given.
#[derive(Drop)]
struct Job {
    lock: Arc<Mutex<Option<Tally>>, Global>,
    start: Arc<Barrier, Global>,
    plan: Plan,
}

fn round<R: Wait>(rt: &R, lock: &Mutex<Option<Tally>>, plan: Plan, seed: u64) -> u64 {
    let mut slot = lock.lock(rt);
    let mut tally = slot.take().unwrap_or(Tally { count: 0 });
    tally.count = tally.count.wrapping_add(1);
    let x = busy(plan.inside, seed);
    *slot = Some(tally);
    drop(slot);
    busy(plan.outside, x)
}

fn work<R: Wait>(rt: &R, job: Job) -> u64 {
    let Job { lock, start, plan } = job;
    start.wait(rt);
    let mut x = 1;
    for _ in 0..plan.rounds {
        x = round(rt, &*lock, plan, x);
    }
    x
}

/// Runs the plan, and gives the count at the end.
pub fn count<R: Threads + Wait + Sync>(
    rt: &R,
    alloc: Global,
    plan: Plan,
) -> Result<u64, AllocError> {
    let lock = Arc::new(alloc, Mutex::new(Some(Tally { count: 0 })))?;
    let start = Arc::new(alloc, Barrier::new(plan.threads as usize))?;
    let mut jobs = Vec::with_capacity(alloc, plan.threads as usize)?;
    for _ in 0..plan.threads {
        let job = Job {
            lock: Arc::try_clone(&lock)?,
            start: Arc::try_clone(&start)?,
            plan,
        };
        jobs.push(job)?;
    }
    thread::map_vec(rt, jobs, &|job| work(rt, job))?;
    let count = lock.lock(rt).as_ref().map_or(0, |tally| tally.count);
    Ok(count)
}
