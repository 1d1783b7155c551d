//! The core under its lock.
ghost use Rattle.std.specs.Prelude.{◌≡◌, ◌<◌, ℕ, List, [], IfOk, reverse};
ghost use Rattle.poa_base.specs.declared.Entry.{Entry};
ghost use Rattle.seat_lock.specs.Seats.{view};
ghost use Rattle.seat_lock.specs.Steps.{Knows, Unites};
ghost use Rattle.seat_lock.specs.Views.{first_view, joined_view, left_of, right_of};
ghost use Rattle.poa_history.specs.Owners.{owner_of};
ghost use Rattle.poa_history.specs.Life.{givens_of};
ghost use Rattle.poa_shared.specs.Seats.{IsIdle};

use crate::belfry::Belfry;
use crate::front::{Front, Place};
use poa_base::WantMemory;
use poa_core::Core;
use seat_lock::SeatLock;
use std::alloc::Global;
use std::sync::Wait;

/// What a thread knows of the one history, and by which it takes part in it. It has no bytes.
pub type Seat = seat_lock::Seat<Core>;

/// An adapter that many threads share, each through a seat of its own.
#[derive(Drop)]
pub struct Shared {
    pub(crate) lock: SeatLock<Core>,
    pub(crate) place: Place,
    pub(crate) belfry: Belfry,
}

impl Shared {
    /// Shares a core, and gives its first seat, from which all others are split.
    pub fn new(alloc: Global, core: Core) -> Result<(Shared, Seat), WantMemory>
        ensures seat { IfOk result (λ made. IsIdle made.0 made.1) }
        ensures view { IfOk result
            (λ made. view made.1 ≡ first_view (givens_of core) (reverse core.history)) }
    {
        let belfry = Belfry::new(alloc)?;
        let (lock, seat) = SeatLock::new(alloc, core)?;
        let shared = Shared {
            lock,
            place: Place::new(),
            belfry,
        };
        Ok((shared, seat))
    }

    /// Waits for the place before the lock. No clause speaks of it.
    pub fn front<R: Wait>(&self, rt: &R) -> Front<'_> {
        self.place.hold(rt)
    }

    /// A new seat that knows as much and made nothing. It takes one from the room.
    pub fn split(&self, seat: &mut Seat) -> Seat
        requires seat { IsIdle self.now seat.old }
        requires room { 0 < (view seat.old).room }
        ensures seats { IsIdle self.now seat.new × IsIdle self.now result }
        ensures left { view seat.new ≡ left_of (view seat.old) }
        ensures right { view result ≡ right_of (view seat.old) }
    {
        self.lock.split(seat)
    }

    /// Takes in another seat, with all that it made.
    pub fn join(&self, seat: &mut Seat, other: Seat)
        requires seats { IsIdle self.now seat.old × IsIdle self.now other }
        ensures seat { IsIdle self.now seat.new }
        ensures view { view seat.new ≡ joined_view (view seat.old) (view other) }
        ensures united { Unites (view seat.old) (view other) (view seat.new) }
    {
        self.lock.join(seat, other);
    }

    /// Takes the core out for good: who calls afterwards waits for ever. It has the whole history.
    pub fn finish<R: Wait>(&self, rt: &R, mut seat: Seat) -> Core
        requires { IsIdle self.now seat }
        ensures given { (view seat).givens ≡ Some (givens_of result) }
        ensures known { Knows owner_of (view seat) (reverse result.history) }
    {
        self.lock.take(rt, &mut seat)
    }
}
