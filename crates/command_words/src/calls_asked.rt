//! What words ask of the calls of a journal.
use poa_base::{Oid, Path};

/// What words ask of the calls of a journal.
#[derive(Drop)]
pub enum CallsAsked {
    /// The call of this number among those that arrived: 0 to 3,999,999.
    Arrival(u32),
    /// Each request and locate of this id on this connection, which is one of 0 to 3,999,999.
    Call { conn: u32, id: u32 },
    /// The activations of the object of this id, in each adapter that stood at this path.
    Object { path: Path, oid: Oid },
    /// A picture of the calls that arrived with the entries from the one of these numbers to the other.
    Picture { from: u32, to: u32 },
    /// What came of all.
    All,
}
