//! The next entry of a run.
use poa_base::Entry;

/// The next entry of a run, with where it stands and what is told beside it.
#[derive(Clone, Copy)]
pub(crate) struct Next<'a> {
    pub entry: &'a Entry,
    /// Its place in the journal, from 0 on.
    pub place: u64,
    /// The entry that began the activation by which it has a call served; none where that is one of the configuration's, and
    /// where it has none served.
    pub begun: Option<u64>,
}
