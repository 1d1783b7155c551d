//! The end of a run is called for.
ghost use Rattle.std.specs.Prelude.{◌≡◌, ◌<◌, false, Some};
ghost use Rattle.poa_shared.specs.Seats.{IsIdle};
ghost use Rattle.poa_shared.specs.Seen.{HoldsConnection};
ghost use Rattle.poa_history.specs.declared.givens.Givens.{Givens};
ghost use Rattle.seat_lock.specs.Seats.{view};
ghost use Rattle.serve_run.specs.Shutting.{Says};
ghost use Rattle.serve_run.specs.Starting.{IsSameSeat};

use crate::staff::Staff;
use poa_base::{Call, Command};
use poa_core::ArriveFault;
use poa_history::Phase;
use poa_shared::{Seat, Shared};
use std::sync::Wait;

/// How many bytes the line `shutdown` has.
const SHUTDOWN_BYTES: u64 = 8;

/// Gives the run up in the name of each worker that was started, and wakes all.
fn give_up<R: Wait>(rt: &R, shared: &Shared, seat: &mut Seat, staff: Staff)
    requires seat { IsIdle shared.now seat.old }
    ensures seat { IsIdle shared.now seat.new }
    ensures same { (g : Givens) → (view seat.old).givens ≡ Some g
        → IsSameSeat (view seat.old) (view seat.new) }
{
    for worker in staff.first..staff.end {
        shared.abandon(rt, seat, worker);
    }
    shared.wake_all(rt, seat);
}

/// Says `shutdown` on the first connection. Where memory is wanting for that, or a worker gave the run up before, all
/// workers are given up; the answer says whether they were.
pub fn shut_down<R: Wait>(rt: &R, shared: &Shared, seat: &mut Seat, staff: Staff) -> bool
    requires seat { IsIdle shared.now seat.old }
    requires conn { HoldsConnection (view seat.old) 0 }
    ensures seat { IsIdle shared.now seat.new }
    ensures same { (g : Givens) → (view seat.old).givens ≡ Some g
        → IsSameSeat (view seat.old) (view seat.new) }
    ensures said { result ≡ false → Says (view seat.old) (view seat.new) }
{
    let phase = shared.phase(rt, seat);
    let call = Call::Line {
        number: 1,
        command: Command::Shutdown,
    };
    let arrived = shared.arrive(rt, seat, 0, call, SHUTDOWN_BYTES);
    if is_lost(&phase, &arrived) {
        give_up(rt, shared, seat, staff);
        return true;
    }
    false
}

/// Whether a worker gave the run up, or memory was wanting.
fn is_lost(phase: &Phase, arrived: &Result<u64, ArriveFault>) -> bool {
    matches!(phase, Phase::Abandoned { .. }) || matches!(arrived, Err(ArriveFault::WantMemory))
}
