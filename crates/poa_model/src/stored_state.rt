//! A state that is stored.
use poa_base::{Oid, Path, State};

/// The state that a fresh servant left for its id, as an entry stored it.
#[derive(Drop)]
pub struct StoredState {
    pub path: Path,
    pub oid: Oid,
    pub state: State,
}
