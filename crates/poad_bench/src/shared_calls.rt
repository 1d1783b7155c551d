//! The calls over the shared core.
ghost use Rattle.std.specs.Prelude.{◌≡◌, ◌<◌, ◌≤◌, ◌+◌};
ghost use Rattle.std.specs.Arc.{arc_value};
ghost use Rattle.seat_lock.specs.Seats.{view};
ghost use Rattle.poa_shared.specs.Seats.{IsIdle};
ghost use Rattle.poa_shared.specs.Seen.{HoldsConnection};

use crate::asking::{SIZE, add_one, core};
use crate::call_plan::Plan;
use crate::fault::Fault;
use crate::mutex_calls::total;
use poa_core::{Collected, StepOut};
use poa_shared::{Seat, Shared};
use std::alloc::Global;
use std::sync::{Arc, Barrier, Wait};
use std::thread;
use std::thread::Threads;

/// What one thread is given.
#[derive(Drop)]
struct Job {
    shared: Arc<Shared, Global>,
    start: Arc<Barrier, Global>,
    /// For the entries of the connection.
    seat: Seat,
    /// For the turns of a worker.
    aid: Seat,
    plan: Plan,
    caller: u32,
    ghost fits: { IsIdle (arc_value shared) seat × IsIdle (arc_value shared) aid },
}

/// Whether a reply was collected.
fn collect<R: Wait>(rt: &R, shared: &Shared, seat: &mut Seat, conn: u32) -> bool
    requires seat { IsIdle shared.now seat.old }
    requires conn { HoldsConnection (view seat.old) conn }
    ensures seat { IsIdle shared.now seat.new }
    ensures conn { HoldsConnection (view seat.new) conn }
{
    matches!(shared.collect(rt, seat, conn), Collected::Reply { .. })
}

/// Whether the worker made an entry.
fn step<R: Wait>(rt: &R, shared: &Shared, aid: &mut Seat, worker: u32) -> bool
    requires seat { IsIdle shared.now aid.old }
    requires worker { worker < 16 }
    ensures { IsIdle shared.now aid.new }
{
    matches!(shared.step(rt, aid, worker), Ok(StepOut::Did(_)))
}

/// Makes turns until the call has its reply.
fn await_reply<R: Wait>(
    rt: &R,
    shared: &Shared,
    seat: &mut Seat,
    aid: &mut Seat,
    conn: u32,
    worker: u32,
)
    requires seats { IsIdle shared.now seat.old × IsIdle shared.now aid.old }
    requires conn { HoldsConnection (view seat.old) conn }
    requires worker { worker < 16 }
    ensures seats { IsIdle shared.now seat.new × IsIdle shared.now aid.new }
    ensures conn { HoldsConnection (view seat.new) conn }
{
    for _ in rt.forever() {
        if collect(rt, shared, seat, conn) {
            return;
        }
        if !step(rt, shared, aid, worker) {
            thread::yield_now();
        }
    }
    unreachable!()
}

/// Makes the turns that the worker has left, so that no call of another caller stays with it.
fn finish<R: Wait>(rt: &R, shared: &Shared, aid: &mut Seat, worker: u32)
    requires seat { IsIdle shared.now aid.old }
    requires worker { worker < 16 }
    ensures { IsIdle shared.now aid.new }
{
    for _ in rt.forever() {
        if !step(rt, shared, aid, worker) {
            return;
        }
    }
    unreachable!()
}

/// Asks the calls of a caller on its connection; how many were answered.
fn ask_all<R: Wait>(
    rt: &R,
    alloc: Global,
    shared: &Shared,
    seat: &mut Seat,
    aid: &mut Seat,
    conn: u32,
    plan: Plan,
    caller: u32,
) -> u64
    requires seats { IsIdle shared.now seat.old × IsIdle shared.now aid.old }
    requires conn { HoldsConnection (view seat.old) conn }
{
    let mut answered = 0u64;
    for _ in 0..plan.calls {
        let Ok(call) = add_one(alloc) else {
            return answered;
        };
        let Ok(_) = shared.arrive(rt, seat, conn, call, SIZE) else {
            return answered;
        };
        await_reply(rt, shared, seat, aid, conn, plan.worker_of(caller));
        answered = answered.saturating_add(1);
    }
    finish(rt, shared, aid, plan.worker_of(caller));
    answered
}

fn work<R: Wait>(rt: &R, alloc: Global, job: Job) -> u64 {
    let Job {
        shared,
        start,
        mut seat,
        mut aid,
        plan,
        caller,
    } = job;
    start.wait(rt);
    let Ok(conn) = shared.enter(rt, &mut seat) else {
        return 0;
    };
    ask_all(rt, alloc, &*shared, &mut seat, &mut aid, conn, plan, caller)
}

/// The job of a caller, with two seats of its own.
fn job_of(
    shared: &Arc<Shared, Global>,
    start: &Arc<Barrier, Global>,
    seat: &mut Seat,
    plan: Plan,
    caller: u32,
) -> Result<Job, Fault>
    requires seat { IsIdle (arc_value shared.now) seat.old }
    requires room { 2 ≤ (view seat.old).room }
    ensures seat { IsIdle (arc_value shared.now) seat.new }
    ensures room { (view seat.old).room ≤ (view seat.new).room + 2 }
{
    let start = Arc::try_clone(start)?;
    Ok(Job {
        shared: Arc::try_clone(shared)?,
        start,
        seat: shared.split(seat),
        aid: shared.split(seat),
        plan,
        caller,
    })
}

/// The jobs of the callers of a plan, at most 512 of them, over a shared core.
fn jobs_over(
    alloc: Global,
    shared: &Arc<Shared, Global>,
    seat: &mut Seat,
    plan: Plan,
) -> Result<Vec<Job>, Fault>
    requires seat { IsIdle (arc_value shared.now) seat.old }
    requires room { (view seat.old).room ≡ 1024 }
{
    let start = Arc::new(alloc, Barrier::new(plan.callers as usize))?;
    let mut jobs = Vec::with_capacity(alloc, plan.callers as usize)?;
    for caller in 0..plan.callers.min(512) {
        jobs.push(job_of(shared, &start, seat, plan, caller)?)?;
    }
    Ok(jobs)
}

/// The same, over a new core.
fn jobs_of(alloc: Global, plan: Plan) -> Result<Vec<Job>, Fault> {
    let (shared, mut seat) = Shared::new(alloc, core(alloc)?)?;
    let shared = Arc::new(alloc, shared)?;
    jobs_over(alloc, &shared, &mut seat, plan)
}

/// Runs the plan; how many calls were answered.
pub fn count<R: Threads + Wait + Sync>(rt: &R, alloc: Global, plan: Plan) -> Result<u64, Fault> {
    let jobs = jobs_of(alloc, plan)?;
    let counts = thread::map_vec(rt, jobs, &|job| work(rt, alloc, job))?;
    Ok(total(&counts))
}
