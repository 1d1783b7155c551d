//! The messages that end a connection: CORBA 3.3 Part 2, 9.4.7 and 9.4.8.
ghost use Rattle.std.specs.Prelude.{◌≡◌, ◌≤◌, [], false};
ghost use Rattle.giop_answer.specs.Outgoing.{framed};

use crate::kind::{CLOSE_CONNECTION, MESSAGE_ERROR, MINOR};

/// The MessageError that answers what can't be read, of this minor version.
pub fn write_error(minor: u8) -> [u8; 12]
    requires { minor ≤ MINOR }
    ensures { result ≡ framed minor MESSAGE_ERROR false [] }
{
    header_alone(minor, MESSAGE_ERROR)
}

/// The CloseConnection that ends a connection, of this minor version.
pub fn write_closing(minor: u8) -> [u8; 12]
    requires { minor ≤ MINOR }
    ensures { result ≡ framed minor CLOSE_CONNECTION false [] }
{
    header_alone(minor, CLOSE_CONNECTION)
}

// A message of this type that has no fields.
fn header_alone(minor: u8, kind: u8) -> [u8; 12]
    ensures { result ≡ framed minor kind false [] }
{
    [b'G', b'I', b'O', b'P', 1, minor, 0, kind, 0, 0, 0, 0]
}
