//! What comes of a script.
use crate::full::Full;
use poa_base::Bytes;

/// What a script printed, how many calls were unadmitted at its end, and where the run was full.
#[derive(Drop)]
pub struct Played {
    pub printed: Bytes,
    pub held: u64,
    pub full: Option<Full>,
}
