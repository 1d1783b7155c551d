//! What was written over a connection.
ghost use Rattle.std.specs.Prelude.{◌≡◌, ◌≢◌, ◌++◌, [], ℕ, List, MatchOption, OnOk};
ghost use Rattle.session_laws.specs.Calls.{IsGivenTo};
ghost use Rattle.session_laws.specs.Records.{told};
ghost use Rattle.journal_audit.specs.Listening.{IsWhole, Writes, WritesMore};

use poa_base::{Head, Reply, WantMemory};
use session_laws::tell;
use std::alloc::Global;
use std::marker::Model;

/// What was written over a connection, compared with the replies that it was given.
#[derive(Drop)]
pub(crate) struct Written<'a> {
    alloc: Global,
    /// What stands behind the replies so far.
    rest: &'a [u8],
    /// Whether these replies stand in front of it.
    fits: bool,
    /// The bytes of one reply.
    reply: Vec<u8>,
}

impl<'a> Model for Written<'a> {
    ghost use Rattle.journal_audit.specs.Listening.{Writing};

    ghost Value = { Writing };

    ghost view = { λ w. record { rest = w.rest.now; fits = w.fits } };
}

impl<'a> Written<'a> {
    /// These bytes; the connection was given no reply yet.
    pub(crate) fn new(alloc: Global, output: &'a [u8]) -> Written<'a>
        ensures { Writes output.now [] result }
    {
        Written {
            alloc,
            rest: output,
            fits: true,
            reply: Vec::new(alloc),
        }
    }

    /// The connection is given a reply.
    pub(crate) fn give(&mut self, head: &Head, reply: &Reply) -> Result<(), WantMemory>
        requires { IsGivenTo head.now reply.now }
        ensures { OnOk result (WritesMore (told head.now reply.now) self.old self.new) }
    {
        if !self.fits {
            return Ok(());
        }
        self.reply.clear();
        tell(self.alloc, &mut self.reply, head, reply)?;
        match behind(self.rest, self.reply.as_slice()) {
            Some(rest) => self.rest = rest,
            None => self.fits = false,
        }
        Ok(())
    }

    /// Whether the replies are all that was written.
    pub(crate) fn is_whole(&self) -> bool
        ensures { IsWhole result self.now }
    {
        self.fits && self.rest.is_empty()
    }
}

/// What stands behind a front of a text, if it begins with that.
fn behind<'a>(text: &'a [u8], front: &[u8]) -> Option<&'a [u8]>
    ensures { MatchOption result ((rest : List ℕ) → text.now ≢ front.now ++ rest)
        (λ rest. text.now ≡ front.now ++ rest.now) }
{
    text.strip_prefix(front)
}
