//! The rule of the lock, what each step tells, and how views are cut and joined. These types are for proofs alone.

use crate::chronicle::Chronicle;
use crate::view::View;
use atomic_table::{Join, Play, Split, TableRule};
use std::snapshot::Snapshot;

/// The rule: there is one history, and the tickets are served in their order.
pub struct OneHistory;

impl<T: Chronicle> TableRule<Option<T>, View<T::Givens, T::Entry>, Snapshot<T>> for OneHistory {
    ghost use Rattle.std.specs.Prelude.{length};
    ghost use Rattle.seat_lock.specs.Rule.{InOrder};
    ghost use Rattle.seat_lock.specs.Views.{first_view};

    ghost holds = { λ key. InOrder T.givens T.history T.owner (T.givens key.value) (length (T.history key.value)) };

    ghost first = { λ key. first_view (T.givens key.value) (T.history key.value) };
}

/// A ticket is drawn.
pub struct Draw;

impl<T: Chronicle> Play<Option<T>, View<T::Givens, T::Entry>> for Draw {
    ghost use Rattle.seat_lock.specs.Steps.{drew};

    ghost then = { drew };
}

/// The number that is served is read, for one's turn.
pub struct Look;

impl<T: Chronicle> Play<Option<T>, View<T::Givens, T::Entry>> for Look {
    ghost use Rattle.seat_lock.specs.Steps.{looked};

    ghost then = { looked T.givens T.history T.owner };
}

/// The next ticket is served.
pub struct PassOn;

impl<T: Chronicle> Play<Option<T>, View<T::Givens, T::Entry>> for PassOn {
    ghost use Rattle.seat_lock.specs.Steps.{passed};

    ghost then = { passed T.givens T.history T.owner };
}

/// The number that is served is read after a join, for what the two seats had seen.
pub struct Learn;

impl<T: Chronicle> Play<Option<T>, View<T::Givens, T::Entry>> for Learn {
    ghost use Rattle.seat_lock.specs.Steps.{learned};

    ghost then = { learned };
}

/// A word on which threads sleep is changed. It tells nothing.
pub struct Mark;

impl<T: Chronicle> Play<Option<T>, View<T::Givens, T::Entry>> for Mark {
    ghost use Rattle.seat_lock.specs.Steps.{marked};

    ghost then = { marked };
}

/// A seat is split off.
pub struct Twin;

impl<G, E> Split<View<G, E>> for Twin {
    ghost use Rattle.seat_lock.specs.Views.{left_of, right_of};

    ghost left = { left_of };

    ghost right = { right_of };
}

/// A seat is joined into another.
pub struct Pair;

impl<G, E> Join<View<G, E>> for Pair {
    ghost use Rattle.seat_lock.specs.Views.{both_of, spent_view};

    ghost both = { both_of };

    ghost spent = { spent_view };
}
