//! Calls of connections and workers that are one event each: entering, leaving, giving up, and looking at the phase.
ghost use Rattle.std.specs.Prelude.{◌≡◌, ◌<◌, ℕ, IfOk};
ghost use Rattle.poa_base.specs.declared.Entry.TheVariants.{Left};
ghost use Rattle.seat_lock.specs.Seats.{view};
ghost use Rattle.poa_history.specs.Phases.{phase_of};
ghost use Rattle.poa_core.specs.Answers as answers;
ghost use Rattle.poa_history.specs.Life.{with_entry};
ghost use Rattle.poa_shared.specs.Events.{Event};
ghost use Rattle.poa_shared.specs.Seats.{IsIdle};
ghost use Rattle.poa_shared.specs.Seen.{HasGivens, HoldsConnection};

use crate::front::Front;
use crate::shared::{Seat, Shared};
use poa_core::{EnterFault, Phase};
use std::sync::Wait;

impl Shared {
    /// A connection enters, and the seat holds it. `Limit` as `Core::enter` has it.
    pub fn enter<R: Wait>(&self, rt: &R, seat: &mut Seat) -> Result<u32, EnterFault>
        requires seat { IsIdle self.now seat.old }
        ensures seat { IsIdle self.now seat.new }
        ensures given { HasGivens (view seat.old) }
        ensures entered { Event (λ old new. answers.Enters old result new) (view seat.old)
            (view seat.new) }
        ensures holds { IfOk result (HoldsConnection (view seat.new)) }
    {
        let _front = self.front(rt);
        let mut core = self.lock.take(rt, seat);
        core.is_legal();
        let result = core.enter();
        core.is_legal();
        self.lock.put(seat, core);
        result
    }

    /// A connection that the seat holds leaves. Workers are woken, since the run may be over.
    pub fn leave<R: Wait>(&self, rt: &R, seat: &mut Seat, conn: u32)
        requires seat { IsIdle self.now seat.old }
        requires conn { HoldsConnection (view seat.old) conn }
        ensures seat { IsIdle self.now seat.new }
        ensures left { Event (λ old new. new ≡ with_entry (Left conn) old) (view seat.old)
            (view seat.new) }
    {
        let front = self.front(rt);
        let mut core = self.lock.take(rt, seat);
        core.is_legal();
        core.leave(conn);
        core.is_legal();
        self.lock.put(seat, core);
        drop(front);
        self.wake_workers(seat);
    }

    /// A worker gives the run up. Everybody is woken.
    pub fn abandon<R: Wait>(&self, rt: &R, seat: &mut Seat, worker: u32)
        requires seat { IsIdle self.now seat.old }
        requires worker { worker < 16 }
        ensures seat { IsIdle self.now seat.new }
        ensures abandoned { Event (λ old new. answers.Abandons worker old new) (view seat.old)
            (view seat.new) }
    {
        let front = self.front(rt);
        let mut core = self.lock.take(rt, seat);
        core.is_legal();
        core.abandon(worker);
        core.is_legal();
        self.lock.put(seat, core);
        drop(front);
        self.wake_all(rt, seat);
    }

    /// How far the run has come.
    pub fn phase<R: Wait>(&self, rt: &R, seat: &mut Seat) -> Phase
        requires { IsIdle self.now seat.old }
        ensures seat { IsIdle self.now seat.new }
        ensures phase { Event (λ old new. (new ≡ old) × (result ≡ phase_of old.history))
            (view seat.old) (view seat.new) }
        ensures holds { (c : ℕ) → HoldsConnection (view seat.old) c
            → HoldsConnection (view seat.new) c }
    {
        let front = self.front(rt);
        self.phase_within(rt, &front, seat)
    }

    /// The same, by one who holds the place before the lock.
    pub fn phase_within<R: Wait>(&self, rt: &R, _front: &Front<'_>, seat: &mut Seat) -> Phase
        requires { IsIdle self.now seat.old }
        ensures seat { IsIdle self.now seat.new }
        ensures phase { Event (λ old new. (new ≡ old) × (result ≡ phase_of old.history))
            (view seat.old) (view seat.new) }
        ensures holds { (c : ℕ) → HoldsConnection (view seat.old) c
            → HoldsConnection (view seat.new) c }
    {
        let core = self.lock.take(rt, seat);
        core.is_legal();
        let phase = core.phase();
        self.lock.put(seat, core);
        phase
    }
}
