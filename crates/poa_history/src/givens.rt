//! What a run is given.
use poa_base::{Config, Store};

/// What a run is given, and nothing changes. No value of it is made: it is what proofs say of a run.
#[derive(Drop)]
pub struct Givens {
    pub config: Config,
    /// The number of the run.
    pub run: u32,
    /// How many arrivals it takes.
    pub limit: u64,
    /// What was stored when it began.
    pub opening: Store,
}
