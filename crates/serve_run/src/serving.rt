//! All doors are served, and then the run's end is called for.
ghost use Rattle.std.specs.Prelude.{◌≡◌, ◌≤◌, ◌+◌, Some, vec_len};
ghost use Rattle.std.specs.Arc.{arc_value};
ghost use Rattle.poa_shared.specs.Seats.{IsIdle};
ghost use Rattle.poa_history.specs.declared.givens.Givens.{Givens};
ghost use Rattle.seat_lock.specs.Seats.{view};
ghost use Rattle.serve_run.specs.Attending.{DoorsServed, AllServed};
ghost use Rattle.serve_run.specs.Opened.{HasBegun};
ghost use Rattle.serve_run.specs.Threads.{CountsThreads};

use crate::doors::Doors;
use crate::joining::{door_back, door_in, join};
use crate::lanes::serve_lanes;
use crate::outcome::Outcome;
use crate::server::Server;
use crate::shutting::shut_down;
use crate::staff::Staff;
use crate::starting::start;
use crate::task::Task;
use outside::{Acceptor, Gate, ThreadCrew};
use poa_shared::{Aid, Seat};
use std::sync::Wait;
use std::thread::Threads;

/// Serves the administrators' door and the lanes, until all have ended. Where a piece can't be started, no further one is,
/// and the run's end is called for at once.
pub fn serve_doors<T, R, A, G>(
    server: &Server<'_, R, G>,
    seat: &mut Seat,
    crew: &mut ThreadCrew<T>,
    staff: Staff,
    doors: Doors<A>,
) -> (Doors<A>, Outcome)
where
    T: Threads + Wait + Drop,
    R: Wait + Copy + Send + Drop + 'static,
    A: Acceptor + Send + Drop + 'static,
    A::Link: Send + 'static,
    G: Gate + Send + Sync + Drop + 'static,
    requires seat { IsIdle (arc_value server.now.shared.now) seat.old }
    requires room { vec_len doors.lanes + vec_len doors.lanes + 1 ≤ (view seat.old).room }
    requires begun { HasBegun (view seat.old) }
    ensures seat { IsIdle (arc_value server.now.shared.now) seat.new }
    ensures served { (g : Givens) → (view seat.old).givens ≡ Some g
        → DoorsServed g A.Link.shown A.standing A.faults A.ends doors result.0 result.1
        (view seat.old) (view seat.new) }
    ensures threads { CountsThreads crew.old.faults crew.new.faults result.1.short }
{
    let Doors { admin, mut lanes } = doors;
    match start::<T, R, A, G>(server, seat, crew, Task::Admin(admin), Aid::none()) {
        Ok(ticket) => {
            let outcome = serve_lanes::<T, R, A, G>(server, seat, crew, staff, &mut lanes);
            let joined = join(server.shared, seat, crew, ticket);
            let admin = door_back(joined.door);
            (
                Doors { admin, lanes },
                outcome.with_door(joined.refused, &joined.end),
            )
        }
        Err(unstarted) => {
            let admin = door_in(unstarted.task);
            let lost = shut_down(server.rt, server.shared, seat, staff);
            (
                Doors { admin, lanes },
                Outcome::short_of(unstarted.want, lost),
            )
        }
    }
}

/// Serves all doors, and then says `shutdown`, unless that was said because a piece couldn't be started.
pub fn serve_and_shut<T, R, A, G>(
    server: &Server<'_, R, G>,
    seat: &mut Seat,
    crew: &mut ThreadCrew<T>,
    staff: Staff,
    doors: Doors<A>,
) -> (Doors<A>, Outcome)
where
    T: Threads + Wait + Drop,
    R: Wait + Copy + Send + Drop + 'static,
    A: Acceptor + Send + Drop + 'static,
    A::Link: Send + 'static,
    G: Gate + Send + Sync + Drop + 'static,
    requires seat { IsIdle (arc_value server.now.shared.now) seat.old }
    requires room { vec_len doors.lanes + vec_len doors.lanes + 1 ≤ (view seat.old).room }
    requires begun { HasBegun (view seat.old) }
    ensures seat { IsIdle (arc_value server.now.shared.now) seat.new }
    ensures served { (g : Givens) → (view seat.old).givens ≡ Some g
        → AllServed g A.Link.shown A.standing A.faults A.ends 0 doors result.0 result.1
        (view seat.old) (view seat.new) }
    ensures threads { CountsThreads crew.old.faults crew.new.faults result.1.short }
{
    let (doors, outcome) = serve_doors::<T, R, A, G>(server, seat, crew, staff, doors);
    if outcome.short.is_some() {
        return (doors, outcome);
    }
    let lost = shut_down(server.rt, server.shared, seat, staff);
    (doors, outcome.with_loss(lost))
}
