//! A request or a trial in flight.
use poa_base::Path;

/// A request that was admitted and hasn't ended, or a trial of a missing child that wasn't answered yet.
#[derive(Drop)]
pub struct Flight {
    pub arrival: u64,
    /// The number of the adapter that it is in flight in; of the parent for a trial.
    pub adapter: u32,
    /// The activation that its verdict names; none for a default servant or a locator's, and for a trial.
    pub activation: Option<u32>,
    /// For a trial, the path of the missing child.
    pub child: Option<Path>,
}
