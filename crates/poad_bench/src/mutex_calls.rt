//! The calls over a core under std's `Mutex`.
ghost use Rattle.std.specs.Prelude.{◌<◌};

use crate::asking::{add_one, core};
use crate::call_plan::Plan;
use crate::fault::Fault;
use crate::guarded::Guarded;
use std::alloc::Global;
use std::sync::{Arc, Barrier, Mutex, Wait};
use std::thread;
use std::thread::Threads;

/// What one thread is given.
#[derive(Drop)]
struct Job {
    core: Arc<Mutex<Guarded>, Global>,
    start: Arc<Barrier, Global>,
    plan: Plan,
    caller: u32,
}

/// Makes turns until the call has its reply.
fn await_reply<R: Wait>(rt: &R, core: &Mutex<Guarded>, conn: u32, worker: u32)
    requires { worker < 16 }
{
    for _ in rt.forever() {
        if core.lock(rt).collect(conn) {
            return;
        }
        let did = core.lock(rt).step(worker);
        if !did {
            thread::yield_now();
        }
    }
    unreachable!()
}

/// Makes the turns that the worker has left, so that no call of another caller stays with it.
fn finish<R: Wait>(rt: &R, core: &Mutex<Guarded>, worker: u32)
    requires { worker < 16 }
{
    for _ in rt.forever() {
        if !core.lock(rt).step(worker) {
            return;
        }
    }
    unreachable!()
}

/// Asks the calls of a caller; how many were answered.
fn call_all<R: Wait>(rt: &R, alloc: Global, core: &Mutex<Guarded>, plan: Plan, caller: u32) -> u64 {
    let Some(conn) = core.lock(rt).enter() else {
        return 0;
    };
    let mut answered = 0u64;
    for _ in 0..plan.calls {
        let Ok(call) = add_one(alloc) else {
            return answered;
        };
        let taken = core.lock(rt).arrive(conn, call);
        if !taken {
            return answered;
        }
        await_reply(rt, core, conn, plan.worker_of(caller));
        answered = answered.saturating_add(1);
    }
    finish(rt, core, plan.worker_of(caller));
    answered
}

fn work<R: Wait>(rt: &R, alloc: Global, job: Job) -> u64 {
    job.start.wait(rt);
    call_all(rt, alloc, &*job.core, job.plan, job.caller)
}

/// The job of a caller.
fn job_of(
    core: &Arc<Mutex<Guarded>, Global>,
    start: &Arc<Barrier, Global>,
    plan: Plan,
    caller: u32,
) -> Result<Job, Fault> {
    let start = Arc::try_clone(start)?;
    Ok(Job {
        core: Arc::try_clone(core)?,
        start,
        plan,
        caller,
    })
}

/// The jobs of the callers of a plan, over a new core.
fn jobs_of(alloc: Global, plan: Plan) -> Result<Vec<Job>, Fault> {
    let core = Arc::new(alloc, Mutex::new(Guarded::new(core(alloc)?)))?;
    let start = Arc::new(alloc, Barrier::new(plan.callers as usize))?;
    let mut jobs = Vec::with_capacity(alloc, plan.callers as usize)?;
    for caller in 0..plan.callers {
        jobs.push(job_of(&core, &start, plan, caller)?)?;
    }
    Ok(jobs)
}

/// Runs the plan; how many calls were answered.
pub fn count<R: Threads + Wait + Sync>(rt: &R, alloc: Global, plan: Plan) -> Result<u64, Fault> {
    let jobs = jobs_of(alloc, plan)?;
    let counts = thread::map_vec(rt, jobs, &|job| work(rt, alloc, job))?;
    Ok(total(&counts))
}

/// The sum of the counts.
pub fn total(counts: &[u64]) -> u64 {
    let mut sum = 0u64;
    for count in counts {
        sum = sum.saturating_add(*count);
    }
    sum
}
