//! Threads over one core.
ghost use Rattle.std.specs.Prelude.{◌≡◌, ◌<◌, ◌≤◌, ◌+◌};
ghost use Rattle.std.specs.Arc.{arc_value};
ghost use Rattle.seat_lock.specs.Seats.{view};
ghost use Rattle.poa_shared.specs.Seats.{IsIdle};

use crate::job;
use crate::job::Job;
use crate::task::Task;
use poa_base::{Reply, WantMemory};
use poa_core::Core;
use poa_shared::{Seat, Shared};
use std::alloc::Global;
use std::sync::atomic::AtomicU64;
use std::sync::{Arc, Wait};
use std::thread;
use std::thread::Threads;

/// What the threads left: the core, and the replies of each.
#[derive(Drop)]
pub struct Played {
    pub core: Core,
    pub replies: Vec<Result<Vec<Reply>, WantMemory>>,
}

/// How many of the tasks are callers.
fn callers_of(tasks: &[Task]) -> u64 {
    tasks
        .iter()
        .filter(|task| matches!(task, Task::Caller { .. } | Task::Holder { .. }))
        .count() as u64
}

/// The job of a task, with a seat of its own.
fn job_of(
    shared: &Arc<Shared, Global>,
    callers: &Arc<AtomicU64, Global>,
    seat: &mut Seat,
    task: Task,
) -> Result<Job, WantMemory>
    requires seat { IsIdle (arc_value shared.now) seat.old }
    requires room { 0 < (view seat.old).room }
    ensures seat { IsIdle (arc_value shared.now) seat.new }
    ensures room { (view seat.old).room ≤ (view seat.new).room + 1 }
{
    let callers = Arc::try_clone(callers)?;
    Ok(Job {
        shared: Arc::try_clone(shared)?,
        callers,
        seat: shared.split(seat),
        task,
    })
}

/// The jobs of the tasks, at most 1,024 of them.
fn jobs_of(
    alloc: Global,
    shared: &Arc<Shared, Global>,
    seat: &mut Seat,
    tasks: &[Task],
) -> Result<Vec<Job>, WantMemory>
    requires seat { IsIdle (arc_value shared.now) seat.old }
    requires room { (view seat.old).room ≡ 1024 }
    ensures { IsIdle (arc_value shared.now) seat.new }
{
    let callers = Arc::new(alloc, AtomicU64::new(callers_of(tasks)))?;
    let mut jobs = Vec::with_capacity(alloc, tasks.len())?;
    for k in 0..tasks.len().min(1024) {
        jobs.push(job_of(shared, &callers, seat, tasks[k])?)?;
    }
    Ok(jobs)
}

/// Does the tasks at once, at most 1,024 of them, each in a thread with a seat of its own.
pub fn play<R: Threads + Wait + Sync>(
    rt: &R,
    alloc: Global,
    core: Core,
    tasks: &[Task],
) -> Result<Played, WantMemory> {
    let (shared, mut seat) = Shared::new(alloc, core)?;
    let shared = Arc::new(alloc, shared)?;
    let jobs = jobs_of(alloc, &shared, &mut seat, tasks)?;
    let replies = thread::map_vec(rt, jobs, &|job| job::run(rt, alloc, job))?;
    Ok(Played {
        core: shared.finish(rt, seat),
        replies,
    })
}
