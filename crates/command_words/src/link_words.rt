//! The bytes of a connection that words ask for.

/// The bytes of a connection that words ask for.
#[derive(Clone, Copy)]
pub struct LinkWords<'a> {
    /// The number of the connection.
    pub conn: u32,
    /// The name of the file with what was read of its peer.
    pub input: &'a str,
    /// The name of the file with what was written to it.
    pub output: &'a str,
}
