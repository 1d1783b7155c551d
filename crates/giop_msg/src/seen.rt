//! What a message asks of a server, seen where it lies.
use poa_base::Head;

/// What a message asks. Its parts are lent: each is a slice of the message.
#[derive(Clone, Copy)]
pub enum Seen<'a> {
    /// A Request: the key of its target, where one can be read; the operation, without its NUL; and the body,
    /// which begins at the place `base` of the message.
    Request {
        head: Head,
        target: Option<&'a [u8]>,
        operation: &'a [u8],
        body: &'a [u8],
        base: u64,
    },
    /// A LocateRequest, with the key of its target, where one can be read.
    Locate {
        head: Head,
        target: Option<&'a [u8]>,
    },
    /// A CancelRequest, with the id of the request.
    Cancel {
        id: u32,
    },
    /// A CloseConnection.
    Closing,
}
