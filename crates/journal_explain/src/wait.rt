//! What a call waits for.
use held_queue::Hold;

/// What a request or a locate waits for until it is admitted, as any worker but the first sees it.
#[derive(Clone, Copy, PartialEq, Eq, Drop)]
pub enum Wait {
    /// For a worker that is free: nothing holds it.
    Worker,
    /// For the end of what holds it.
    Held(Hold),
}
