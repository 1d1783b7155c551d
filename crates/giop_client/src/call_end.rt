//! How a call ended.
use poa_base::{Body, Bytes};

/// How a call that follows forwards ended.
#[derive(Drop)]
pub enum CallEnd {
    /// A result: the body of the Reply, which isn't read yet.
    Result { body: Body },
    /// A user exception, by its repository id.
    User { id: Bytes },
    /// A system exception: its repository id, its minor code and its completion.
    System { id: Bytes, minor: u32, done: u32 },
    /// The last reference has no profile by which it can be asked.
    NoProfile,
    /// One forward more came than is followed, which is `hops`.
    TooManyHops { hops: u32 },
    /// The connector opened no link.
    ConnectFault,
    /// A read of the last link failed.
    ReadFault,
    /// A write to the last link failed.
    WriteFault,
    /// The server closed the connection, or the link came to its end, before it answered.
    Closed,
    /// What the server said is no answer to the request.
    BadReply,
    /// So many reads of the last link found nothing.
    NoAnswer { quiets: u32 },
    /// No memory was left.
    WantMemory,
}
