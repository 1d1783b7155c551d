//! What a piece is to do.
use std::sync::Arc;

/// What a piece is to do.
#[derive(Drop)]
pub enum Task<A, G> {
    /// To serve the clients that come in at this door.
    Lane(A),
    /// To serve the administrators that come in at this door.
    Admin(A),
    /// To work, passing the gate.
    Worker { worker: u32, gate: Arc<G> },
}
