//! What a worker's step did.
use poa_base::Point;

/// The outcome of a step.
#[derive(Clone, Copy, Drop)]
pub enum StepOut {
    /// An entry was made, after which the worker is at this point.
    Did(Point),
    /// There was nothing to do. It is over where a `shutdown` was admitted, every connection but the first
    /// has left, and every call is admitted.
    Idle { over: bool },
    /// The worker was abandoned.
    Stopped,
}
