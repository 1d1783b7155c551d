//! Who receives the links of a door.
use poa_shared::Shared;
use session_laws::Peer;
use std::alloc::Global;

/// Who receives the links of a door: the handle to wait by, where memory is taken, the core that their connections are of,
/// and whom they come from.
#[derive(Drop)]
pub struct Reception<'a, R> {
    pub rt: &'a R,
    pub alloc: Global,
    pub shared: &'a Shared,
    pub peer: Peer,
}
