//! Who is served over a connection.

/// Who is served over a connection.
#[derive(Clone, Copy, Drop)]
pub enum Peer {
    /// It sends messages of GIOP.
    Client,
    /// It sends lines.
    Administrator,
}
