//! What a run is served with.
use std::alloc::Global;
use std::sync::Arc;

/// What a run is served with: the handle to wait by, where memory is taken, and the gate that its workers pass.
#[derive(Drop)]
pub struct Means<'a, R, G> {
    pub rt: &'a R,
    pub alloc: Global,
    pub gate: &'a Arc<G, Global>,
}
