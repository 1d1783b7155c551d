//! A lane's aid: its seat is split and joined.
ghost use Rattle.std.specs.Prelude.{◌≡◌, ◌<◌, false, None};
ghost use Rattle.poa_shared.specs.Seats.{IsIdle};
ghost use Rattle.poa_shared.specs.Helping.{IsReady};
ghost use Rattle.seat_lock.specs.Seats.{view};
ghost use Rattle.serve_run.specs.Aiding.{AidJoined, IsSplit};

use poa_shared::{Aid, Seat, Shared};

/// An aid on a new seat, where the gate never keeps anybody; else one without a seat.
pub fn split_aid(shared: &Shared, seat: &mut Seat, is_open: bool) -> Aid
    requires seat { IsIdle shared.now seat.old }
    requires room { 0 < (view seat.old).room }
    ensures seat { IsIdle shared.now seat.new }
    ensures ready { IsReady shared.now result.seat }
    ensures split { IsSplit (view seat.old) result.seat (view seat.new) }
    ensures closed { is_open ≡ false → result.seat ≡ None }
{
    if !is_open {
        return Aid::none();
    }
    Aid {
        seat: Some(shared.split(seat)),
    }
}

/// Joins an aid's seat, with the turns that were made by it.
pub fn join_aid(shared: &Shared, seat: &mut Seat, aid: Aid)
    requires seat { IsIdle shared.now seat.old }
    requires aid { IsReady shared.now aid.seat }
    ensures seat { IsIdle shared.now seat.new }
    ensures joined { AidJoined (view seat.old) aid.seat (view seat.new) }
{
    if let Some(own) = aid.seat {
        shared.join(seat, own);
    }
}
