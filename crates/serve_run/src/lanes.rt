//! The lanes are served.
ghost use Rattle.std.specs.Prelude.{◌≡◌, ◌≤◌, ◌+◌, Some, vec_len, vec_capacity};
ghost use Rattle.std.specs.Arc.{arc_value};
ghost use Rattle.poa_shared.specs.Seats.{IsIdle};
ghost use Rattle.poa_history.specs.declared.givens.Givens.{Givens};
ghost use Rattle.seat_lock.specs.Seats.{view};
ghost use Rattle.serve_run.specs.Opened.{HasBegun};
ghost use Rattle.serve_run.specs.Lanes.{LanesServed};
ghost use Rattle.serve_run.specs.Threads.{CountsThreads};

use crate::aiding::{join_aid, split_aid};
use crate::joining::{door_back, door_in, join};
use crate::outcome::Outcome;
use crate::server::Server;
use crate::shutting::shut_down;
use crate::staff::Staff;
use crate::starting::start;
use crate::task::Task;
use outside::{Acceptor, Gate, ThreadCrew};
use poa_shared::Seat;
use std::sync::Wait;
use std::thread::Threads;

/// Serves the lanes, each in a thread of its own, the last one first, until all have ended. Where the gate never keeps anybody
/// each has an aid, and makes a worker's turns for the calls that come in by it. Where one can't be started,
/// those in front of it aren't either, and the run's end is called for at once.
pub fn serve_lanes<T, R, A, G>(
    server: &Server<'_, R, G>,
    seat: &mut Seat,
    crew: &mut ThreadCrew<T>,
    staff: Staff,
    lanes: &mut Vec<A>,
) -> Outcome
where
    T: Threads + Wait + Drop,
    R: Wait + Copy + Send + Drop + 'static,
    A: Acceptor + Send + Drop + 'static,
    A::Link: Send + 'static,
    G: Gate + Send + Sync + Drop + 'static,
    requires seat { IsIdle (arc_value server.now.shared.now) seat.old }
    requires room { vec_len lanes.old + vec_len lanes.old ≤ (view seat.old).room }
    requires begun { HasBegun (view seat.old) }
    ensures seat { IsIdle (arc_value server.now.shared.now) seat.new }
    ensures len { vec_len lanes.new ≡ vec_len lanes.old }
    ensures capacity { vec_capacity lanes.new ≡ vec_capacity lanes.old }
    ensures served { (g : Givens) → (view seat.old).givens ≡ Some g
        → LanesServed g A.Link.shown A.standing A.faults A.ends lanes.old.items lanes.new.items
        result (view seat.old) (view seat.new) }
    ensures threads { CountsThreads crew.old.faults crew.new.faults result.short }
{
    let Some(lane) = lanes.pop() else {
        return Outcome::good();
    };
    let aid = split_aid(server.shared, seat, server.gate.is_open());
    match start::<T, R, A, G>(server, seat, crew, Task::Lane(lane), aid) {
        Ok(ticket) => {
            let outcome = serve_lanes::<T, R, A, G>(server, seat, crew, staff, lanes);
            let joined = join(server.shared, seat, crew, ticket);
            join_aid(server.shared, seat, joined.aid);
            lanes.push_reserved(door_back(joined.door));
            outcome.with_door(joined.refused, &joined.end)
        }
        Err(unstarted) => {
            join_aid(server.shared, seat, unstarted.aid);
            lanes.push_reserved(door_in(unstarted.task));
            let lost = shut_down(server.rt, server.shared, seat, staff);
            Outcome::short_of(unstarted.want, lost)
        }
    }
}
