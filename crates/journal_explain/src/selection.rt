//! What is asked of the calls of a journal.
ghost use Rattle.std.specs.Prelude.{◌≡◌};
ghost use Rattle.journal_explain.specs.Naming as naming;

use crate::call_name::CallName;
use poa_base::{Oid, Path};

/// What is asked of the calls of a journal.
#[derive(Drop)]
pub enum Selection {
    /// The call of this number among those that arrived, from 0 on.
    Arrival(u64),
    /// Each request and locate of this id on this connection.
    Call { conn: u32, id: u32 },
    /// No call by itself, but the object of this id in each adapter that stood at this path.
    Object { path: Path, oid: Oid },
    /// Each call that arrived with an entry from the first of these on to the last, counted from 0.
    Picture { from: u64, to: u64 },
    /// No call by itself, but what came of all.
    All,
}

impl Selection {
    /// Whether the call of this name, which arrived with the entry at this place, is asked for by itself.
    pub(crate) fn asks(&self, name: CallName, place: u64) -> bool
        ensures { result ≡ naming.asks self.now name place }
    {
        match self {
            Selection::Arrival(arrival) => name.arrival == *arrival,
            Selection::Call { conn, id } => name.conn == *conn && is_id(*id, name.id),
            Selection::Picture { from, to } => *from <= place && place <= *to,
            Selection::Object { .. } | Selection::All => false,
        }
    }

    /// Whether it is asked what came of all.
    pub fn is_all(&self) -> bool
        ensures { result ≡ naming.is_all self.now }
    {
        match self {
            Selection::All => true,
            Selection::Arrival(_)
            | Selection::Call { .. }
            | Selection::Object { .. }
            | Selection::Picture { .. } => false,
        }
    }
}

/// Whether a request has this id.
fn is_id(id: u32, own: Option<u32>) -> bool
    ensures { result ≡ naming.is_id id own }
{
    match own {
        Some(own) => own == id,
        None => false,
    }
}
