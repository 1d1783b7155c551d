//! A run from its beginning to its end.
ghost use Rattle.std.specs.Prelude.{◌≡◌, ◌≤◌, [], None, Some, vec_len, IfSome, IfNone, ℕ, Ok};
ghost use Rattle.std.specs.Arc.{arc_value};
ghost use Rattle.poa_history.specs.Life.{givens_of};
ghost use Rattle.poa_shared.specs.Seats.{IsIdle};
ghost use Rattle.seat_lock.specs.Seats.{view};
ghost use Rattle.serve_run.specs.Opened.{IsOpened};
ghost use Rattle.serve_run.specs.Running.{IsServedRun};
ghost use Rattle.serve_run.specs.Threads.{CountsThreads};

use crate::doors::Doors;
use crate::means::Means;
use crate::outcome::Outcome;
use crate::server::Server;
use crate::working::serve_workers;
use history_laws::opening_laws::lifetimes_are_kept;
use outside::{Acceptor, Gate, ThreadCrew};
use poa_core::Core;
use poa_shared::{Seat, Shared};
use session_laws::laws::sessions_stay;
use std::alloc::Global;
use std::sync::{Arc, Wait};
use std::thread::Threads;

/// A run that was served: its core, and how it came off.
#[derive(Drop)]
pub struct Run {
    pub core: Core,
    pub outcome: Outcome,
}

/// The doors, and the run; no run where memory was wanting before the first piece was started.
#[derive(Drop)]
pub struct Finished<A> {
    pub doors: Doors<A>,
    pub run: Option<Run>,
}

/// Shares a core that hasn't begun, and lets the run's own connection enter, the first. None where memory is wanting.
fn open<R: Wait>(rt: &R, alloc: Global, core: Core) -> Option<(Arc<Shared, Global>, Seat)>
    requires { core.history ≡ [] }
    ensures seat { IfSome result (λ it. IsIdle (arc_value it.0) it.1) }
    ensures opened { IfSome result (λ it. IsOpened (givens_of core) (view it.1)) }
{
    let Ok((shared, mut seat)) = Shared::new(alloc, core) else {
        return None;
    };
    let Ok(_first) = shared.enter(rt, &mut seat) else {
        return None;
    };
    let Ok(shared) = Arc::new(alloc, shared) else {
        return None;
    };
    Some((shared, seat))
}

/// Serves clients and administrators on a core that hasn't begun, by workers in threads, until each door has ended, the run
/// is full, or it is shut down. Then all is brought to its end, and the core comes back with its whole journal.
pub fn serve_core<T, R, A, G>(
    means: &Means<'_, R, G>,
    core: Core,
    doors: Doors<A>,
    workers: u32,
    crew: &mut ThreadCrew<T>,
) -> Finished<A>
where
    T: Threads + Wait + Drop,
    R: Wait + Copy + Send + Drop + 'static,
    A: Acceptor + Send + Drop + 'static,
    A::Link: Send + 'static,
    G: Gate + Send + Sync + Drop + 'static,
    requires fresh { core.history ≡ [] }
    requires workers { (1 ≤ workers) × (workers ≤ 16) }
    requires lanes { vec_len doors.lanes ≤ 64 }
    ensures unserved { IfNone result.run (result.doors ≡ doors) }
    ensures unstarted { IfNone result.run (crew.new.faults ≡ crew.old.faults) }
    ensures served { IfSome result.run (λ run.
        IsServedRun (givens_of core) A.Link.shown A.standing A.faults A.ends workers doors
        result.doors run.outcome run.core) }
    ensures threads { IfSome result.run
        (λ run. CountsThreads crew.old.faults crew.new.faults run.outcome.short) }
{
    let Some((shared, mut seat)) = open(means.rt, means.alloc, core) else {
        return Finished { doors, run: None };
    };
    let server = Server {
        rt: means.rt,
        alloc: means.alloc,
        gate: means.gate,
        shared: &shared,
    };
    let (doors, outcome) = serve_workers::<T, R, A, G>(
        &server, &mut seat, crew, workers, workers, doors,
    );
    shared.phase(means.rt, &mut seat);
    let core = shared.finish(means.rt, seat);
    lifetimes_are_kept();
    sessions_stay();
    Finished {
        doors,
        run: Some(Run { core, outcome }),
    }
}
