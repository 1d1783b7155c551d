//! What the bytes of a peer say next.
use poa_base::Call;

/// What the bytes of a peer say next.
#[derive(Drop)]
pub enum Told {
    /// A call, in a message or a line of so many bytes.
    Call { call: Call, size: u64 },
    /// A message or a line that asks nothing: a CancelRequest, an empty line or a comment.
    Nothing,
    /// Nothing more stands whole. So many bytes belong to no message or line.
    More { have: u64 },
    /// A CloseConnection. Nothing behind it is read.
    Closed,
    /// What can't be read begins at this byte: a bad message, one that isn't for a server, or a line longer than 4,096
    /// bytes. Nothing behind it is read.
    Bad { at: u64 },
}
