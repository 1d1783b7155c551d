//! What a worker has begun.

/// What a worker has begun and not ended.
#[derive(Clone, Copy, Drop)]
pub enum Stage {
    /// Nothing.
    Free,
    /// The adapter activator is asked for this arrival.
    Trying(u64),
    /// The servant of this activation is incarnated for this arrival.
    Incarnating(u64, u32),
    /// The servant of this arrival is to run.
    Serving(u64),
    /// It ran, and the request is to end.
    Ran(u64),
    /// The servant of this activation is to be etherealized.
    Removing(u32),
}
