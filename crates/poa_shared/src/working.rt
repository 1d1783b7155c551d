//! The work of a worker.
ghost use Rattle.std.specs.Prelude.{◌≡◌, ◌<◌, Some};
ghost use Rattle.seat_lock.specs.Seats.{view};
ghost use Rattle.poa_history.specs.declared.givens.Givens.{Givens};
ghost use Rattle.poa_shared.specs.Seats.{IsIdle};
ghost use Rattle.poa_shared.specs.Worked.{Worked};

use crate::bell::Bell;
use crate::pause::Pause;
use crate::shared::{Seat, Shared};
use crate::turning::take_turns;
use crate::work_end::WorkEnd;
use outside::Gate;
use poa_base::WantMemory;
use std::sync::Wait;

/// Works as a worker below 16 until the run is over. Between the stages of what it has begun it passes the gate, outside
/// every lock, and leaves what else there is to another. Where there is nothing to do it sleeps at its bell.
pub fn work<R: Wait, G: Gate>(
    rt: &R,
    shared: &Shared,
    seat: &mut Seat,
    worker: u32,
    gate: &G,
) -> WorkEnd
    requires seat { IsIdle shared.now seat.old }
    requires worker { worker < 16 }
    ensures seat { IsIdle shared.now seat.new }
    ensures worked { (g : Givens) → (view seat.old).givens ≡ Some g
        → Worked g worker (view seat.old) (view seat.new) result }
{
    for _ in rt.forever() {
        let heard = shared.listen(seat, Bell::Worker(worker));
        match take_turns(rt, shared, seat, worker, gate.is_open()) {
            Ok(Pause::At(point)) => {
                shared.wake_another(seat, worker);
                gate.pass(point);
            }
            Ok(Pause::Idle { over: true }) => return WorkEnd::Closed,
            Ok(Pause::Idle { over: false }) => {
                shared.sleep(rt, Bell::Worker(worker), heard);
            }
            Ok(Pause::Stopped) => return WorkEnd::Stopped { worker },
            Ok(Pause::Later) => (),
            Err(WantMemory) => {
                shared.abandon(rt, seat, worker);
                shared.wake_all(rt, seat);
                return WorkEnd::WantMemory;
            }
        }
    }
    unreachable!()
}
