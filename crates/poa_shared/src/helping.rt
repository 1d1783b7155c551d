//! A worker's turns, made by another.
ghost use Rattle.std.specs.Prelude.{◌≡◌, Some};
ghost use Rattle.seat_lock.specs.Seats.{view};
ghost use Rattle.poa_history.specs.declared.givens.Givens.{Givens};
ghost use Rattle.poa_shared.specs.Seats.{IsIdle};
ghost use Rattle.poa_shared.specs.Helping.{Aids, Helps, IsReady};

use crate::aid::Aid;
use crate::front::Front;
use crate::news::News;
use crate::shared::{Seat, Shared};
use poa_core::StepOut;
use std::sync::Wait;

/// The worker whose turns others make: the first, which may admit the calls of every adapter.
const HELPED: u32 = 0;

/// How many turns are made at most before others are let to the front.
const TURNS: u32 = 1_024;

impl Aid {
    /// Where calls came, makes the first worker's turns until it has nothing to do, while the run is running and memory isn't
    /// wanting: else its thread goes on. The front is held.
    ///
    /// No gate is passed between the stages of what is begun, so there may be a seat only where the gate never keeps
    /// anybody. Who holds the front goes on where another left off, since the history tells the worker's next entry.
    pub fn help<R: Wait>(&mut self, rt: &R, shared: &Shared, front: &Front<'_>, news: &mut News)
        requires { IsReady shared.now self.old.seat }
        ensures ready { IsReady shared.now self.new.seat }
        ensures aids { Aids self.old.seat self.new.seat }
    {
        if !news.has_calls() {
            return;
        }
        if let Some(seat) = &mut self.seat {
            help_within(rt, shared, front, seat, news);
        }
    }
}

/// Makes the turns by this seat.
fn help_within<R: Wait>(
    rt: &R,
    shared: &Shared,
    front: &Front<'_>,
    seat: &mut Seat,
    news: &mut News,
)
    requires { IsIdle shared.now seat.old }
    ensures seat { IsIdle shared.now seat.new }
    ensures helps { (g : Givens) → (view seat.old).givens ≡ Some g
        → Helps (view seat.old) (view seat.new) }
{
    for _ in 0..TURNS {
        match shared.step_running(rt, front, seat, HELPED, news) {
            Some(Ok(StepOut::Did(_))) if !news.is_last_turn => (),
            Some(Ok(StepOut::Did(_) | StepOut::Idle { .. })) => {
                news.note_idle();
                return;
            }
            _ => return,
        }
    }
}
