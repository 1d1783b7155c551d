//! The rounds over the seat lock.
ghost use Rattle.std.specs.Prelude.{◌≡◌};
ghost use Rattle.std.specs.Arc.{arc_value};
ghost use Rattle.seat_lock.specs.Seats.{IsFree, IsSeatOf};

use crate::busy::busy;
use crate::round_plan::Plan;
use crate::tally::Tally;
use seat_lock::{Seat, SeatLock};
use std::alloc::{AllocError, Global};
use std::sync::{Arc, Barrier, Wait};
use std::thread;
use std::thread::Threads;

/// What one thread is given.
#[derive(Drop)]
struct Job {
    lock: Arc<SeatLock<Tally>, Global>,
    start: Arc<Barrier, Global>,
    seat: Seat<Tally>,
    plan: Plan,
    ghost fits: { IsSeatOf (arc_value lock) seat × IsFree seat },
}

fn round<R: Wait>(
    rt: &R,
    lock: &SeatLock<Tally>,
    seat: &mut Seat<Tally>,
    plan: Plan,
    seed: u64,
) -> u64
    requires { IsSeatOf lock.now seat.old × IsFree seat.old }
    ensures { IsSeatOf lock.now seat.new × IsFree seat.new }
{
    let mut tally = lock.take(rt, seat);
    tally.count = tally.count.wrapping_add(1);
    let x = busy(plan.inside, seed);
    lock.put(seat, tally);
    busy(plan.outside, x)
}

fn work<R: Wait>(rt: &R, job: Job) -> u64 {
    let Job {
        lock,
        start,
        mut seat,
        plan,
    } = job;
    start.wait(rt);
    let mut x = 1;
    for _ in 0..plan.rounds {
        x = round(rt, &*lock, &mut seat, plan, x);
    }
    x
}

/// Runs the plan, and gives the count at the end.
pub fn count<R: Threads + Wait + Sync>(
    rt: &R,
    alloc: Global,
    plan: Plan,
) -> Result<u64, AllocError> {
    let (lock, mut seat) = SeatLock::new(alloc, Tally { count: 0 })?;
    let lock = Arc::new(alloc, lock)?;
    let start = Arc::new(alloc, Barrier::new(plan.threads as usize))?;
    let mut jobs = Vec::with_capacity(alloc, plan.threads as usize)?;
    for _ in 0..plan.threads.min(1024) {
        let job = Job {
            lock: Arc::try_clone(&lock)?,
            start: Arc::try_clone(&start)?,
            seat: lock.split(&mut seat),
            plan,
        };
        jobs.push(job)?;
    }
    thread::map_vec(rt, jobs, &|job| work(rt, job))?;
    Ok(lock.take(rt, &mut seat).count)
}
