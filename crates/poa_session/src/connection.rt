//! A connection that is served.
use poa_shared::Shared;
use session_laws::Peer;
use std::alloc::Global;

/// A connection that is served: the handle to wait by, where memory is taken, the core that it is a connection of, its number
/// and its peer.
#[derive(Drop)]
pub(crate) struct Connection<'a, R> {
    pub rt: &'a R,
    pub alloc: Global,
    pub shared: &'a Shared,
    pub number: u32,
    pub peer: Peer,
}
