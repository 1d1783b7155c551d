//! The lock and its seats.
ghost use Rattle.std.specs.Prelude.{◌≡◌};

use crate::WantMemory;
use crate::chronicle::Chronicle;
use crate::plays::{Draw, Learn, OneHistory, Pair, PassOn, Twin};
use crate::view::View;
use crate::words::{NEXT, SERVED, SLOT, WORDS};
use atomic_table::Table;
use std::alloc::Global;
use std::snapshot::Snapshot;
use std::sync::Wait;

/// A token with no bytes, with which a thread takes the value. It shows what the thread knows of the history.
pub type Seat<T> = atomic_table::Seat<
    Option<T>,
    View<<T as Chronicle>::Givens, <T as Chronicle>::Entry>,
>;

/// A lock that is passed on in the order of tickets, over a value that stands for a history.
#[derive(Drop)]
pub struct SeatLock<T: Chronicle> {
    pub(crate) table: Table<Option<T>, View<T::Givens, T::Entry>, Snapshot<T>, OneHistory, Global>,
    ghost sized: { (table.shared.table_id.words ≡ 1288) × (table.shared.table_id.slots ≡ 1) },
}

impl<T: Chronicle> SeatLock<T> {
    ghost use Rattle.std.specs.Prelude.{◌<◌, ◌++◌, ◌∷◌, [], IfOk, Some, length, ℕ};
    ghost use Rattle.seat_lock.specs.Histories.{MayPut};
    ghost use Rattle.seat_lock.specs.Seats.{view, IsFree, IsSame, IsSeatOf, IsTaker};
    ghost use Rattle.seat_lock.specs.Steps.{Knows, Taken, Unites};
    ghost use Rattle.seat_lock.specs.Views.{first_view, joined_view, left_of, passed_on, right_of, turned_to};

    /// A lock over the value, and its first seat, from which all others are split.
    pub fn new(alloc: Global, value: T) -> Result<(SeatLock<T>, Seat<T>), WantMemory>
    where
        T: Drop,
        ensures lock { IfOk result (λ made. IsSeatOf made.0 made.1) }
        ensures free { IfOk result (λ made. IsFree made.1) }
        ensures view { IfOk result (λ made. view made.1 ≡ first_view (T.givens value) (T.history value)) }
    {
        let about = Snapshot::of(&value);
        let mut slots = Vec::with_capacity(alloc, 1)?;
        slots.push_reserved(Some(value));
        let (table, seat) = Table::new(alloc, &[0; WORDS], slots, &about).map_err(|_| WantMemory)?;
        Ok((SeatLock { table }, seat))
    }

    /// Takes the value, in the order in which the tickets are drawn, and sleeps until its turn. Every take needs its `put`: a seat that is let go in its turn leaves the lock closed.
    pub fn take<R: Wait>(&self, rt: &R, seat: &mut Seat<T>) -> T
        requires lock { IsSeatOf self.now seat.old }
        requires free { IsFree seat.old }
        ensures lock { IsSame seat.old seat.new }
        ensures taker { IsTaker seat.new }
        ensures view { (n : ℕ) × (view seat.new ≡ turned_to (view seat.old) n (T.history result)) }
        ensures taken { Taken T.givens T.history T.owner (view seat.old) result }
    {
        let ticket = self.table.shared.fetch_add::<Draw>(seat, NEXT, 1);
        self.wait_for(rt, seat, ticket);
        match self.table.shared.exchange(seat, SLOT, None) {
            Some(value) => value,
            None => unreachable!(),
        }
    }

    /// Puts the value back, with at most one entry more, and passes the turn on.
    pub fn put(&self, seat: &mut Seat<T>, value: T)
        requires lock { IsSeatOf self.now seat.old }
        requires taker { IsTaker seat.old }
        requires givens { (view seat.old).givens ≡ Some (T.givens value) }
        requires history { MayPut T.owner (view seat.old).kept (view seat.old).mine (T.history value) }
        ensures lock { IsSame seat.old seat.new }
        ensures free { IsFree seat.new }
        ensures view { view seat.new ≡ passed_on (view seat.old) (T.history value) }
        ensures none_made { T.history value ≡ (view seat.old).kept → (view seat.new).mine ≡ (view seat.old).mine }
        ensures one_made { (e : T.Entry) → T.history value ≡ (view seat.old).kept ++ e ∷ []
            → (view seat.new).mine ≡ (view seat.old).mine ++ length (view seat.old).kept ∷ [] }
        ensures known { Knows T.owner (view seat.new) (T.history value) }
    {
        let shared = &self.table.shared;
        match shared.exchange(seat, SLOT, Some(value)) {
            None => (),
            Some(_) => unreachable!(),
        }
        let served = shared.fetch_add::<PassOn>(seat, SERVED, 1);
        self.call_next(seat, served.wrapping_add(1));
    }

    /// A new seat that knows as much and made nothing. It takes one from the room.
    pub fn split(&self, seat: &mut Seat<T>) -> Seat<T>
        requires lock { IsSeatOf self.now seat.old }
        requires free { IsFree seat.old }
        requires room { 0 < (view seat.old).room }
        ensures lock { IsSame seat.old seat.new × IsSeatOf self.now result }
        ensures free { IsFree seat.new × IsFree result }
        ensures left { view seat.new ≡ left_of (view seat.old) }
        ensures right { view result ≡ right_of (view seat.old) }
    {
        self.table.shared.split_seat::<Twin>(seat)
    }

    /// Takes in another seat, with all that it made.
    pub fn join(&self, seat: &mut Seat<T>, other: Seat<T>)
        requires lock { IsSeatOf self.now seat.old × IsSeatOf self.now other }
        requires free { IsFree seat.old × IsFree other }
        ensures lock { IsSame seat.old seat.new }
        ensures free { IsFree seat.new }
        ensures view { view seat.new ≡ joined_view (view seat.old) (view other) }
        ensures united { Unites (view seat.old) (view other) (view seat.new) }
    {
        self.table.shared.join_seat::<Pair>(seat, other);
        self.table.shared.load::<Learn>(seat, SERVED);
    }
}
