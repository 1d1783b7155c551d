//! What an entry of a journal is to a call.
use crate::row::Row;
use crate::servant::Servant;
use crate::service::Service;
use crate::wait::Wait;
use poa_base::{Attempt, Reply, Verdict};

/// What happened to a call with an entry of the journal.
#[derive(Drop)]
pub enum Event {
    /// It arrived.
    Arrived,
    /// From this entry on it waits for that.
    Waits(Wait),
    /// A worker admitted it, with this verdict: a request or a locate by this row of the table of verdicts, and a command by
    /// none.
    Admitted {
        worker: u32,
        row: Option<Row>,
        verdict: Verdict,
        /// The activation that serves it; none where none does, or not yet.
        service: Option<Service>,
    },
    /// The adapter activator answered.
    Tried(Attempt),
    /// The servant activator answered: it brought this servant, or none.
    Incarnated {
        servant: Option<Servant>,
    },
    /// Its servant ran.
    Ran,
    /// The request ended.
    Ended,
    /// This reply to it was taken for writing.
    Collected(Reply),
    /// The activation of this number, which serves it or did, isn't active any more.
    Ends(u32),
}
