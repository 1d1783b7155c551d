//! A piece is joined.
ghost use Rattle.std.specs.Prelude.{◌≡◌, IsSome, Some};
ghost use Rattle.std.specs.Arc.{arc_value};
ghost use Rattle.poa_shared.specs.Seats.{IsIdle};
ghost use Rattle.poa_shared.specs.Helping.{Aids, IsReady};
ghost use Rattle.seat_lock.specs.Seats.{view};
ghost use Rattle.serve_run.specs.Starting.{HasDoor, IsJoined, task_door};

use crate::piece::Piece;
use crate::ran::PieceEnd;
use crate::task::Task;
use outside::{Acceptor, Gate, ThreadCrew, Ticket};
use poa_history::Full;
use poa_shared::{Aid, Seat, Shared};
use std::alloc::Global;
use std::sync::{Arc, Wait};
use std::thread::Threads;

/// What a piece gave back, but its seat. The aid's is still to be joined.
#[derive(Drop)]
pub struct Joined<A> {
    pub door: Option<A>,
    pub refused: Option<Full>,
    pub end: PieceEnd,
    pub aid: Aid,
}

/// Waits for a piece, and joins its seat.
pub fn join<T, R, A, G>(
    shared: &Arc<Shared, Global>,
    seat: &mut Seat,
    crew: &ThreadCrew<T>,
    ticket: Ticket<Piece<R, A, G>>,
) -> Joined<A>
where
    T: Threads + Wait + Drop,
    R: Wait + Copy + Send + Drop + 'static,
    A: Acceptor + Send + Drop + 'static,
    A::Link: Send + 'static,
    G: Gate + Send + Sync + Drop + 'static,
    requires seat { IsIdle (arc_value shared.now) seat.old }
    requires shared { arc_value ticket.promise.job.value.shared ≡ arc_value shared.now }
    ensures seat { IsIdle (arc_value shared.now) seat.new }
    ensures ready { IsReady (arc_value shared.now) result.aid.seat }
    ensures aids { Aids ticket.promise.job.value.aid.seat result.aid.seat }
    ensures joined { IsJoined A.Link.shown A.standing A.faults A.ends ticket.promise.job.value.task
        (view ticket.promise.job.value.seat)
        (view seat.old) (view seat.new) result.door result.refused result.end }
{
    let ran = crew.join(ticket);
    shared.join(seat, ran.seat);
    Joined {
        door: ran.door,
        refused: ran.refused,
        end: ran.end,
        aid: ran.aid,
    }
}

/// The door of a task that is one of a door.
pub fn door_in<A, G: Drop>(task: Task<A, G>) -> A
    requires { HasDoor task }
    ensures { task_door task ≡ Some result }
{
    match task {
        Task::Lane(door) | Task::Admin(door) => door,
        Task::Worker { .. } => unreachable!(),
    }
}

/// The door that a piece gave back.
pub fn door_back<A>(door: Option<A>) -> A
    requires { IsSome door }
    ensures { door ≡ Some result }
{
    match door {
        Some(door) => door,
        None => unreachable!(),
    }
}
