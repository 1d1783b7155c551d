//! A message of a stream.
ghost use Rattle.std.specs.Prelude.{◌≡◌, ◌≤◌};
ghost use Rattle.giop_frame.specs.Message.{IsMessage};
ghost use Rattle.giop_frame.specs.Part.{minor_of};

use poa_base::Bytes;
use std::marker::Model;

/// A message of GIOP 1.0, 1.1 or 1.2, joined where it came in fragments, and its place in the stream.
///
/// It begins with a header and is no Fragment. A joined message keeps the header of its first part,
/// whose size and fragment bit say nothing of the joined one.
#[derive(Drop)]
pub struct Message {
    at: u64,
    bytes: Bytes,
}

impl Model for Message {
    ghost use Rattle.giop_frame.specs.Message.{IsMessage};
    ghost use Rattle.giop_frame.specs.Stream.{Framed};

    ghost Value = { Framed };

    ghost view = { λ m. record { at = m.at; bytes = m.bytes } };

    ghost invariant = { λ m. IsMessage m.bytes };
}

impl Message {
    /// The message of these bytes, whose first one has this place in the stream.
    pub fn new(at: u64, bytes: Bytes) -> Self
        requires { IsMessage bytes }
        ensures { result ≡ record { at = at; bytes = bytes } }
    {
        Message { at, bytes }
    }

    /// The place in the stream of the message's first byte.
    pub fn at(&self) -> u64
        ensures { result ≡ self.now.at }
    {
        self.at
    }

    /// The minor version.
    pub fn minor(&self) -> u8
        ensures value { result ≡ minor_of self.now.bytes }
        ensures known { result ≤ 2 }
    {
        self.bytes.as_slice()[5]
    }

    /// The message, with its header.
    pub fn bytes(&self) -> &[u8]
        ensures same { result.now ≡ self.now.bytes }
        ensures message { IsMessage self.now.bytes }
    {
        self.bytes.as_slice()
    }

    /// The message's bytes, given away. Takes no memory.
    pub fn into_bytes(self) -> Bytes
        ensures same { result ≡ self.bytes }
        ensures message { IsMessage self.bytes }
    {
        let Message { at: _, bytes } = self;
        bytes
    }
}
