//! The gate between the stages of a worker.
use poa_base::Point;

/// What a worker passes, without the lock, while a stage of it is unfinished. It may keep the worker for a
/// while; no clause speaks of that.
pub trait Gate {
    fn pass(&self, point: Point);

    /// Whether it never keeps anybody.
    fn is_open(&self) -> bool {
        false
    }
}

/// The gate that never keeps anybody.
#[derive(Clone, Copy, Drop)]
pub struct OpenGate;

impl Gate for OpenGate {
    fn pass(&self, _point: Point) {}

    fn is_open(&self) -> bool {
        true
    }
}
