//! The journal of a run.
use crate::entry::Entry;
use crate::items::Items;
use crate::store::Store;

/// A history from its opening on.
#[derive(Drop)]
pub struct Journal {
    /// The number of the run.
    pub run: u32,
    /// What was stored when the run began.
    pub opening: Store,
    /// The entries, the oldest first.
    pub entries: Items<Entry>,
}
