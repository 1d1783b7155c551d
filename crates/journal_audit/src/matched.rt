//! Whether the bytes of a link are those of its journal.

/// Whether what was read and written over a connection is what its journal says: a session of it that ended well.
#[derive(Clone, Copy, Drop)]
pub struct Matched {
    /// The number of the connection.
    pub conn: u32,
    pub is_session: bool,
}
