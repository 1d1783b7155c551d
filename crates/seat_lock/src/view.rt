//! What a seat knows. No value of these types is made: they are for proofs alone.

use std::collections::LinkedList;

/// What a seat is doing.
pub enum Stage {
    /// It holds nothing.
    Idle,
    /// It has drawn a ticket.
    Waiting,
    /// Its ticket is served, and the value is its own.
    Turn,
    /// It was joined into another seat.
    Spent,
}

/// What a seat knows of the one history, and what it holds.
pub struct View<G, E> {
    pub stage: Stage,
    /// The ticket drawn. Idle seats have none, whatever stands here.
    pub ticket: u64,
    /// The history of the value that was taken. Just after a join it is the shorter of the two histories seen.
    pub kept: LinkedList<E>,
    /// What the first value was made with. A spent seat has nothing here.
    pub givens: Option<G>,
    /// The length of the first value's history.
    pub base: u64,
    /// The history as the seat saw it last.
    pub seen: LinkedList<E>,
    /// The positions in the history of the entries that the seat made.
    pub mine: LinkedList<u64>,
    /// How many seats can still be split off.
    pub room: u64,
}
