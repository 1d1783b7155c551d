//! How a worker ended.

/// How a worker ended.
#[derive(Clone, Copy, Drop)]
pub enum WorkEnd {
    /// The run is over: a `shutdown` was admitted, every connection but the first has left, every call is admitted, and
    /// the worker has no next entry.
    Closed,
    /// The worker was abandoned by another.
    Stopped { worker: u32 },
    /// A turn found no memory, so the worker gave the run up.
    WantMemory,
}
