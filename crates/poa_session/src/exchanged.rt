//! What a round came to on the shared core.

/// What a round came to on the shared core, where the session goes on.
#[derive(Clone, Copy, Drop)]
pub(crate) struct Exchanged {
    /// So many bytes that were read belong to no message or line yet.
    pub have: u64,
    /// So many calls are owed a reply still.
    pub owed: u64,
}
