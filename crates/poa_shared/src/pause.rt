//! Why a worker makes no further turn for now.
use poa_base::Point;

/// Why a worker makes no further turn in this hold of the front.
#[derive(Clone, Copy, Drop)]
pub enum Pause {
    /// The gate is to be passed.
    At(Point),
    /// There is nothing to do; `over` where nothing more can come.
    Idle { over: bool },
    /// The worker was abandoned.
    Stopped,
    /// It made as many turns as one hold may have.
    Later,
}
