//! A door is served until it ends, or the run takes no more links.
ghost use Rattle.std.specs.Prelude.{◌≡◌, Some, []};
ghost use Rattle.seat_lock.specs.Seats.{view};
ghost use Rattle.poa_history.specs.declared.givens.Givens.{Givens};
ghost use Rattle.poa_shared.specs.Seats.{IsIdle};
ghost use Rattle.poa_shared.specs.Helping.{Aids, IsReady};
ghost use Rattle.serve_run.specs.Doors.{DoorKept, DoorServed, ending_of, stop_of};

use crate::ran::{PieceEnd, Ran};
use crate::received::Received;
use crate::receiving::receive;
use crate::reception::Reception;
use crate::refusing::noted;
use outside::Acceptor;
use poa_history::{Full, Phase};
use poa_shared::{Aid, Seat};
use std::sync::Wait;

/// How the serving of a door ended.
#[derive(Drop)]
pub struct Attendance {
    pub refused: Option<Full>,
    pub end: PieceEnd,
}

/// Serves link after link, until the door ends or fails, or the run isn't running: that is looked at where nobody is at
/// the door, and after each session.
pub fn attend<R: Wait, A: Acceptor>(
    reception: &Reception<'_, R>,
    seat: &mut Seat,
    aid: &mut Aid,
    door: &mut A,
) -> Attendance
    requires seat { IsIdle reception.now.shared.now seat.old }
    requires aid { IsReady reception.now.shared.now aid.old.seat }
    requires fresh { (view seat.old).mine ≡ [] }
    ensures seat { IsIdle reception.now.shared.now seat.new }
    ensures ready { IsReady reception.now.shared.now aid.new.seat }
    ensures aids { Aids aid.old.seat aid.new.seat }
    ensures served { (g : Givens) → (view seat.old).givens ≡ Some g
        → DoorServed g reception.now.peer A.Link.shown A.standing A.faults A.ends (view seat.old)
        (view seat.new) door.old door.new result.refused result.end }
{
    let mut refused = None;
    for _ in reception.rt.forever() {
        let received = receive(reception, seat, aid, door);
        refused = noted(refused, &received);
        if let Some(end) = ending(&received) {
            return Attendance { refused, end };
        }
        let phase = reception.shared.phase(reception.rt, seat);
        if let Some(end) = stop_in(phase) {
            return Attendance { refused, end };
        }
    }
    unreachable!()
}

/// How the door ended, where it did.
fn ending(received: &Received) -> Option<PieceEnd>
    ensures { result ≡ ending_of received.now }
{
    match received {
        Received::End => Some(PieceEnd::DoorEnd),
        Received::Failed => Some(PieceEnd::DoorFailed),
        _ => None,
    }
}

/// How a door is left in this phase of the run; it isn't, while the run is running.
fn stop_in(phase: Phase) -> Option<PieceEnd>
    ensures { result ≡ stop_of phase }
{
    match phase {
        Phase::Running => None,
        _ => Some(PieceEnd::NotRunning(phase)),
    }
}

/// The whole of a door's piece.
pub fn serve_door<R: Wait, A: Acceptor>(
    reception: &Reception<'_, R>,
    mut seat: Seat,
    mut aid: Aid,
    mut door: A,
) -> Ran<A>
    requires seat { IsIdle reception.now.shared.now seat }
    requires aid { IsReady reception.now.shared.now aid.seat }
    requires fresh { (view seat).mine ≡ [] }
    ensures seat { IsIdle reception.now.shared.now result.seat }
    ensures ready { IsReady reception.now.shared.now result.aid.seat }
    ensures aids { Aids aid.seat result.aid.seat }
    ensures served { (g : Givens) → (view seat).givens ≡ Some g
        → DoorKept g reception.now.peer A.Link.shown A.standing A.faults A.ends door (view seat)
        result }
{
    let attendance = attend(reception, &mut seat, &mut aid, &mut door);
    Ran {
        seat,
        aid,
        door: Some(door),
        refused: attendance.refused,
        end: attendance.end,
    }
}
