//! The texts of the journal and of the store.
ghost use Rattle.std.specs.Prelude.{◌≡◌, ℕ, IfOk};
ghost use Rattle.seat_lock.specs.Seats.{view};
ghost use Rattle.poa_shared.specs.Events.{Event, PrintsJournal, PrintsStore};
ghost use Rattle.poa_shared.specs.Seats.{IsIdle};

use crate::shared::{Seat, Shared};
use poa_base::{Bytes, WantMemory};
use std::alloc::Global;
use std::sync::Wait;

impl Shared {
    /// The text of the journal as it stands.
    pub fn print_journal<R: Wait>(
        &self,
        rt: &R,
        alloc: Global,
        seat: &mut Seat,
    ) -> Result<Bytes, WantMemory>
        requires { IsIdle self.now seat.old }
        ensures seat { IsIdle self.now seat.new }
        ensures printed { Event (PrintsJournal result) (view seat.old) (view seat.new) }
    {
        let _front = self.front(rt);
        let core = self.lock.take(rt, seat);
        core.is_legal();
        let text = poa_journal::print_parts(alloc, core.run(), core.opening(), core.entries());
        self.lock.put(seat, core);
        text
    }

    /// The text of the store as it stands.
    pub fn print_store<R: Wait>(
        &self,
        rt: &R,
        alloc: Global,
        seat: &mut Seat,
    ) -> Result<Bytes, WantMemory>
        requires { IsIdle self.now seat.old }
        ensures seat { IsIdle self.now seat.new }
        ensures printed { Event (PrintsStore result) (view seat.old) (view seat.new) }
    {
        let _front = self.front(rt);
        let core = self.lock.take(rt, seat);
        core.is_legal();
        let text = poa_journal::print_store(alloc, core.store());
        self.lock.put(seat, core);
        text
    }
}
