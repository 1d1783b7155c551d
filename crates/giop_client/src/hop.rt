//! What a server says to a request.
use poa_base::{Body, Bytes, Ior};

/// What a server says to a request.
#[derive(Drop)]
pub enum Hop {
    /// A result: the body of the Reply, which isn't read yet.
    Result { body: Body },
    /// A user exception, by its repository id.
    User { id: Bytes },
    /// A system exception: its repository id, its minor code and its completion.
    System { id: Bytes, minor: u32, done: u32 },
    /// LOCATION_FORWARD: the reference to ask in place of this one.
    Forward { ior: Ior },
    /// CloseConnection or MessageError.
    Closed,
    /// Anything else.
    BadReply,
}
