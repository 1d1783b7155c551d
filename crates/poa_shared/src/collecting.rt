//! Connections are given their replies.
ghost use Rattle.std.specs.Prelude.{◌≡◌, ℕ};
ghost use Rattle.seat_lock.specs.Seats.{view};
ghost use Rattle.poa_core.specs.Answers as answers;
ghost use Rattle.poa_shared.specs.Events.{CollectsFitting, Event};
ghost use Rattle.poa_shared.specs.Seats.{IsIdle};
ghost use Rattle.poa_shared.specs.Seen.{HoldsConnection, Owns};

use crate::front::Front;
use crate::shared::{Seat, Shared};
use poa_core::Collected;
use std::sync::Wait;

impl Shared {
    /// A connection that entered by the seat is given its next reply, which is one to a call of its kind. It may have left.
    pub fn collect<R: Wait>(&self, rt: &R, seat: &mut Seat, conn: u32) -> Collected
        requires seat { IsIdle self.now seat.old }
        requires conn { Owns (view seat.old) conn }
        ensures seat { IsIdle self.now seat.new }
        ensures collected { Event (CollectsFitting conn result) (view seat.old) (view seat.new) }
        ensures holds { (c : ℕ) → HoldsConnection (view seat.old) c
            → HoldsConnection (view seat.new) c }
    {
        let front = self.front(rt);
        self.collect_within(rt, &front, seat, conn)
    }

    /// The same, by one who holds the place before the lock.
    pub fn collect_within<R: Wait>(
        &self,
        rt: &R,
        _front: &Front<'_>,
        seat: &mut Seat,
        conn: u32,
    ) -> Collected
        requires seat { IsIdle self.now seat.old }
        requires conn { Owns (view seat.old) conn }
        ensures seat { IsIdle self.now seat.new }
        ensures collected { Event (CollectsFitting conn result) (view seat.old) (view seat.new) }
        ensures holds { (c : ℕ) → HoldsConnection (view seat.old) c
            → HoldsConnection (view seat.new) c }
    {
        let mut core = self.lock.take(rt, seat);
        core.is_legal();
        let result = core.collect(conn);
        core.is_legal();
        self.lock.put(seat, core);
        result
    }
}
