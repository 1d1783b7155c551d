//! What the pieces of a run are made of.
use poa_shared::Shared;
use std::alloc::Global;
use std::sync::Arc;

/// What the pieces of a run are made of: what it is served with, and the core that they share.
#[derive(Drop)]
pub struct Server<'a, R, G> {
    pub rt: &'a R,
    pub alloc: Global,
    pub gate: &'a Arc<G, Global>,
    pub shared: &'a Arc<Shared, Global>,
}
