//! The state of a servant.
use poa_base::{Sid, State};

/// The state of a servant, as an entry left it.
#[derive(Drop)]
pub struct ServantState {
    pub servant: Sid,
    pub state: State,
}
