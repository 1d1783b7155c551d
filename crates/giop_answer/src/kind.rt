//! The header of a message: CORBA 3.3 Part 2, 9.4.1.

/// The bytes of a header.
pub const HEADER: u64 = 12;

/// The newest minor version that is read and written, of GIOP 1.2. The others are 0 and 1.
pub const MINOR: u8 = 2;

/// The type of a Request, from a client.
pub const REQUEST: u8 = 0;

/// The type of a Reply, from a server.
pub const REPLY: u8 = 1;

/// The type of a CancelRequest, from a client.
pub const CANCEL_REQUEST: u8 = 2;

/// The type of a LocateRequest, from a client.
pub const LOCATE_REQUEST: u8 = 3;

/// The type of a LocateReply, from a server.
pub const LOCATE_REPLY: u8 = 4;

/// The type of a CloseConnection, from either.
pub const CLOSE_CONNECTION: u8 = 5;

/// The type of a MessageError, from either.
pub const MESSAGE_ERROR: u8 = 6;
