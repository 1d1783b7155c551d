//! The bytes of a connection.
ghost use Rattle.std.specs.Prelude.{◌≡◌};

use std::marker::Model;

/// What was read of a connection's peer, and what was written to it.
#[derive(Drop)]
pub struct Link<'a> {
    conn: u32,
    input: &'a [u8],
    output: &'a [u8],
}

impl<'a> Model for Link<'a> {
    ghost use Rattle.journal_audit.specs.Matching.{LinkBytes};

    ghost Value = { LinkBytes };

    ghost view = { λ l. record { conn = l.conn; input = l.input.now; output = l.output.now } };
}

impl<'a> Link<'a> {
    /// The connection of this number; what was read of its peer, and what was written to it.
    pub fn new(conn: u32, input: &'a [u8], output: &'a [u8]) -> Link<'a>
        ensures { result ≡ record { conn = conn; input = input.now; output = output.now } }
    {
        Link {
            conn,
            input,
            output,
        }
    }

    /// The number of the connection.
    pub fn conn(&self) -> u32
        ensures { result ≡ self.now.conn }
    {
        self.conn
    }

    /// What was read of its peer.
    pub fn input(&self) -> &'a [u8]
        ensures { result.now ≡ self.now.input }
    {
        self.input
    }

    /// What was written to it.
    pub fn output(&self) -> &'a [u8]
        ensures { result.now ≡ self.now.output }
    {
        self.output
    }
}
