//! A thread and what it is given.
ghost use Rattle.std.specs.Prelude.{◌≡◌, ◌<◌};
ghost use Rattle.std.specs.Arc.{arc_value};
ghost use Rattle.poa_shared.specs.Seats.{IsIdle};

use crate::calling::call_all;
use crate::task::Task;
use poa_base::{Reply, WantMemory};
use poa_core::StepOut;
use poa_shared::{Bell, Seat, Shared};
use std::alloc::Global;
use std::sync::atomic::{AtomicU64, Ordering};
use std::sync::{Arc, Wait};

/// What one thread is given.
#[derive(Drop)]
pub struct Job {
    pub shared: Arc<Shared, Global>,
    /// How many callers are still to end.
    pub callers: Arc<AtomicU64, Global>,
    pub seat: Seat,
    pub task: Task,
    ghost fits: { IsIdle (arc_value shared) seat },
}

/// Takes a worker's turns until there is nothing to do. Answers whether it goes on.
fn take_turns<R: Wait>(rt: &R, shared: &Shared, seat: &mut Seat, worker: u32) -> bool
    requires seat { IsIdle shared.now seat.old }
    requires worker { worker < 16 }
    ensures { IsIdle shared.now seat.new }
{
    for _ in rt.forever() {
        match shared.step(rt, seat, worker) {
            Ok(StepOut::Did(_)) => (),
            Ok(StepOut::Idle { .. }) => return true,
            Ok(StepOut::Stopped) | Err(WantMemory) => return false,
        }
    }
    unreachable!()
}

/// Takes a worker's turns until all callers are done.
fn work<R: Wait>(rt: &R, shared: &Shared, seat: &mut Seat, worker: u32, callers: &AtomicU64)
    requires seat { IsIdle shared.now seat.old }
    requires worker { worker < 16 }
    ensures { IsIdle shared.now seat.new }
{
    for _ in rt.forever() {
        let heard = shared.listen(seat, Bell::Worker(worker));
        if !take_turns(rt, shared, seat, worker) || callers.load(Ordering::SeqCst) == 0 {
            return;
        }
        shared.sleep(rt, Bell::Worker(worker), heard);
    }
    unreachable!()
}

/// Takes so many turns, and gives the run up.
fn quit<R: Wait>(rt: &R, shared: &Shared, seat: &mut Seat, worker: u32, turns: u32)
    requires seat { IsIdle shared.now seat.old }
    requires worker { worker < 16 }
    ensures { IsIdle shared.now seat.new }
{
    for _ in 0..turns {
        let _ = shared.step(rt, seat, worker);
    }
    shared.abandon(rt, seat, worker);
}

/// Does a job. A caller gives its replies.
pub fn run<R: Wait>(rt: &R, alloc: Global, job: Job) -> Result<Vec<Reply>, WantMemory> {
    let Job {
        shared,
        callers,
        mut seat,
        task,
    } = job;
    match task {
        Task::Caller { .. } | Task::Holder { .. } => {
            let replies = call_all(rt, alloc, &*shared, &mut seat, task);
            callers.fetch_sub(1, Ordering::SeqCst);
            shared.wake_workers(&mut seat);
            replies
        }
        Task::Worker { worker } => {
            work(rt, &*shared, &mut seat, worker % 16, &*callers);
            Ok(Vec::new(alloc))
        }
        Task::Quitter { worker, turns } => {
            quit(rt, &*shared, &mut seat, worker % 16, turns);
            Ok(Vec::new(alloc))
        }
    }
}
