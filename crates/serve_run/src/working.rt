//! The workers work while the doors are served.
ghost use Rattle.std.specs.Prelude.{◌≡◌, ◌≤◌, ◌+◌, Some, vec_len};
ghost use Rattle.std.specs.Arc.{arc_value};
ghost use Rattle.poa_shared.specs.Seats.{IsIdle};
ghost use Rattle.poa_history.specs.declared.givens.Givens.{Givens};
ghost use Rattle.seat_lock.specs.Seats.{view};
ghost use Rattle.serve_run.specs.Attending.{AllServed};
ghost use Rattle.serve_run.specs.Opened.{HasBegun};
ghost use Rattle.serve_run.specs.Outcomes.{is_loss};
ghost use Rattle.serve_run.specs.Threads.{CountsThreads};

use crate::doors::Doors;
use crate::joining::join;
use crate::outcome::{Outcome, Want};
use crate::ran::PieceEnd;
use crate::server::Server;
use crate::serving::serve_and_shut;
use crate::shutting::shut_down;
use crate::staff::Staff;
use crate::starting::start;
use crate::task::Task;
use outside::{Acceptor, Gate, ThreadCrew};
use poa_shared::{Aid, Seat, WorkEnd};
use std::sync::{Arc, Wait};
use std::thread::Threads;

/// Whether a worker didn't come to the run's end.
fn is_loss(end: &PieceEnd) -> bool
    ensures { result ≡ is_loss end.now }
{
    !matches!(end, PieceEnd::Worked(WorkEnd::Closed))
}

/// Starts so many of the workers, serves all doors, calls for the run's end, and joins the workers. Where a worker can't be
/// started, nothing further is, and the run's end is called for at once.
pub fn serve_workers<T, R, A, G>(
    server: &Server<'_, R, G>,
    seat: &mut Seat,
    crew: &mut ThreadCrew<T>,
    workers: u32,
    count: u32,
    doors: Doors<A>,
) -> (Doors<A>, Outcome)
where
    T: Threads + Wait + Drop,
    R: Wait + Copy + Send + Drop + 'static,
    A: Acceptor + Send + Drop + 'static,
    A::Link: Send + 'static,
    G: Gate + Send + Sync + Drop + 'static,
    requires seat { IsIdle (arc_value server.now.shared.now) seat.old }
    requires room { count + (vec_len doors.lanes + vec_len doors.lanes + 1) ≤ (view seat.old).room }
    requires workers { workers ≤ 16 }
    requires count { count ≤ workers }
    requires begun { HasBegun (view seat.old) }
    ensures seat { IsIdle (arc_value server.now.shared.now) seat.new }
    ensures served { (g : Givens) → (view seat.old).givens ≡ Some g
        → AllServed g A.Link.shown A.standing A.faults A.ends count doors result.0 result.1
        (view seat.old) (view seat.new) }
    ensures threads { CountsThreads crew.old.faults crew.new.faults result.1.short }
{
    let staff = Staff {
        first: count,
        end: workers,
    };
    if count == 0 {
        return serve_and_shut::<T, R, A, G>(server, seat, crew, staff, doors);
    }
    let Ok(own_gate) = Arc::try_clone(server.gate) else {
        let lost = shut_down(server.rt, server.shared, seat, staff);
        return (doors, Outcome::short_of(Want::Memory, lost));
    };
    let task = Task::Worker {
        worker: count - 1,
        gate: own_gate,
    };
    match start::<T, R, A, G>(server, seat, crew, task, Aid::none()) {
        Ok(ticket) => {
            let (doors, outcome) = serve_workers::<T, R, A, G>(
                server,
                seat,
                crew,
                workers,
                count - 1,
                doors,
            );
            let joined = join(server.shared, seat, crew, ticket);
            (doors, outcome.with_loss(is_loss(&joined.end)))
        }
        Err(unstarted) => {
            let lost = shut_down(server.rt, server.shared, seat, staff);
            (doors, Outcome::short_of(unstarted.want, lost))
        }
    }
}
