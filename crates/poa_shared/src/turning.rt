//! Turns in one hold of the front.
ghost use Rattle.std.specs.Prelude.{◌≡◌, ◌<◌, Some};
ghost use Rattle.seat_lock.specs.Seats.{view};
ghost use Rattle.poa_history.specs.declared.givens.Givens.{Givens};
ghost use Rattle.poa_shared.specs.Seats.{IsIdle};
ghost use Rattle.poa_shared.specs.Pauses.{Pauses};

use crate::front::Front;
use crate::news::News;
use crate::pause::Pause;
use crate::shared::{Seat, Shared};
use poa_base::{Point, WantMemory};
use poa_core::StepOut;
use std::sync::Wait;

/// How many turns a worker makes at most before it lets others to the front.
const TURNS: u32 = 64;

/// Makes turns until there is nothing to do, or until the worker comes to a point at which a gate that isn't open is to
/// be passed. The front is held.
fn turns_within<R: Wait>(
    rt: &R,
    shared: &Shared,
    front: &Front<'_>,
    seat: &mut Seat,
    worker: u32,
    is_open: bool,
    news: &mut News,
) -> Result<Pause, WantMemory>
    requires seat { IsIdle shared.now seat.old }
    requires worker { worker < 16 }
    ensures seat { IsIdle shared.now seat.new }
    ensures turned { (g : Givens) → (view seat.old).givens ≡ Some g
        → Pauses g worker (view seat.old) result (view seat.new) }
{
    for _ in 0..TURNS {
        match shared.step_within(rt, front, seat, worker, news)? {
            StepOut::Did(Point::Free) => (),
            StepOut::Did(point) => {
                if !is_open {
                    return Ok(Pause::At(point));
                }
            }
            StepOut::Idle { over } => return Ok(Pause::Idle { over }),
            StepOut::Stopped => return Ok(Pause::Stopped),
        }
    }
    Ok(Pause::Later)
}

/// Makes turns under one hold of the front, and then wakes those whom they concern.
pub fn take_turns<R: Wait>(
    rt: &R,
    shared: &Shared,
    seat: &mut Seat,
    worker: u32,
    is_open: bool,
) -> Result<Pause, WantMemory>
    requires seat { IsIdle shared.now seat.old }
    requires worker { worker < 16 }
    ensures seat { IsIdle shared.now seat.new }
    ensures turned { (g : Givens) → (view seat.old).givens ≡ Some g
        → Pauses g worker (view seat.old) result (view seat.new) }
{
    let mut news = News::none();
    let front = shared.front(rt);
    let result = turns_within(rt, shared, &front, seat, worker, is_open, &mut news);
    drop(front);
    shared.tell(rt, seat, &news);
    result
}
