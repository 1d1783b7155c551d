//! What a command works over.

/// What a command works over: the source that it reads, the sink that it writes, and files.
#[derive(Drop)]
pub struct Host<S, K, F> {
    pub source: S,
    pub sink: K,
    pub files: F,
}
