//! What passed over a link.
use std::net::SocketAddr;

/// Whose a link is, and how many bytes passed over it.
#[derive(Clone, Copy, Drop)]
pub struct Traffic {
    /// The address and port of the other side.
    pub peer: SocketAddr,
    /// The bytes that were read.
    pub read: u64,
    /// The bytes that were written.
    pub written: u64,
}

impl Traffic {
    /// Nothing passed yet.
    pub(crate) fn none(peer: SocketAddr) -> Self {
        Traffic {
            peer,
            read: 0,
            written: 0,
        }
    }

    /// These bytes were read.
    pub(crate) fn count_read(&mut self, piece: &[u8]) {
        self.read = self.read.saturating_add(piece.len() as u64);
    }

    /// These bytes were written.
    pub(crate) fn count_written(&mut self, piece: &[u8]) {
        self.written = self.written.saturating_add(piece.len() as u64);
    }
}
