//! What plays a script.
use crate::full::Full;
use poa_core::Core;

/// The adapter, and what was printed so far.
#[derive(Drop)]
pub struct Player {
    pub core: Core,
    pub printed: Vec<u8>,
    /// Where the first call was refused.
    pub filled: Option<Full>,
    /// Where the first connection was refused.
    pub turned_away: Option<Full>,
}
