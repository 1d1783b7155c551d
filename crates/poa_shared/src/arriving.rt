//! Calls arrive.
ghost use Rattle.std.specs.Prelude.{◌≡◌, ℕ};
ghost use Rattle.poa_history.specs.Legal.{IsSize};
ghost use Rattle.seat_lock.specs.Seats.{view};
ghost use Rattle.poa_core.specs.Answers as answers;
ghost use Rattle.poa_shared.specs.Events.{Event};
ghost use Rattle.poa_shared.specs.Seats.{IsIdle};
ghost use Rattle.poa_shared.specs.Seen.{HoldsConnection};

use crate::front::Front;
use crate::shared::{Seat, Shared};
use poa_base::Call;
use poa_core::ArriveFault;
use std::sync::Wait;

impl Shared {
    /// A call of so many bytes arrives on a connection that the seat holds. `Limit` as `Core::arrive` has it.
    pub fn arrive<R: Wait>(
        &self,
        rt: &R,
        seat: &mut Seat,
        conn: u32,
        call: Call,
        size: u64,
    ) -> Result<u64, ArriveFault>
        requires seat { IsIdle self.now seat.old }
        requires conn { HoldsConnection (view seat.old) conn }
        requires size { IsSize size }
        ensures seat { IsIdle self.now seat.new }
        ensures arrived { Event (λ old new. answers.Arrives conn call size old result new)
            (view seat.old) (view seat.new) }
        ensures holds { HoldsConnection (view seat.new) conn }
    {
        let front = self.front(rt);
        let result = self.arrive_within(rt, &front, seat, conn, call, size);
        drop(front);
        self.wake_worker(seat);
        result
    }

    /// The same, by one who holds the place before the lock, and wakes a worker later.
    pub fn arrive_within<R: Wait>(
        &self,
        rt: &R,
        _front: &Front<'_>,
        seat: &mut Seat,
        conn: u32,
        call: Call,
        size: u64,
    ) -> Result<u64, ArriveFault>
        requires seat { IsIdle self.now seat.old }
        requires conn { HoldsConnection (view seat.old) conn }
        requires size { IsSize size }
        ensures seat { IsIdle self.now seat.new }
        ensures arrived { Event (λ old new. answers.Arrives conn call size old result new)
            (view seat.old) (view seat.new) }
        ensures holds { HoldsConnection (view seat.new) conn }
    {
        let mut core = self.lock.take(rt, seat);
        core.is_legal();
        let result = core.arrive(conn, call, size);
        core.is_legal();
        self.lock.put(seat, core);
        result
    }
}
