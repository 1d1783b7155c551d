//! The bytes that were fed and not read.
ghost use Rattle.std.specs.Prelude.{◌≡◌, ◌+◌, ◌<◌, ◌≤◌, ◌^◌, ◌++◌, [], length, drop, OnOk, OnErr};

use poa_base::WantMemory;
use std::alloc::Global;
use std::marker::Model;

/// The bytes that were fed and not read.
///
/// What was read stays in front until it is as long as what wasn't. So a byte is moved at most once on
/// average, and the buffer holds at most twice what is unread.
#[derive(Drop)]
pub(crate) struct Unread {
    bytes: Vec<u8>,
    start: usize,
}

impl Model for Unread {
    ghost use Rattle.std.specs.Prelude.{ℕ, ◌≤◌, List, drop, vec_len};

    ghost Value = { List ℕ };

    ghost view = { λ u. drop u.start u.bytes.items };

    ghost invariant = { λ u. u.start ≤ vec_len u.bytes };
}

impl Unread {
    /// Nothing.
    pub(crate) fn new(alloc: Global) -> Self
        ensures { result ≡ [] }
    {
        Unread {
            bytes: Vec::new(alloc),
            start: 0,
        }
    }

    /// The bytes.
    pub(crate) fn as_slice(&self) -> &[u8]
        ensures { result.now ≡ self.now }
    {
        &self.bytes[self.start..]
    }

    /// Puts a piece behind them.
    pub(crate) fn push(&mut self, piece: &[u8]) -> Result<(), WantMemory>
        ensures ok { OnOk result (self.new ≡ self.old ++ piece.now) }
        ensures refused { OnErr result (self.new ≡ self.old) }
    {
        self.compact();
        self.bytes.extend_from_slice(piece)
    }

    /// Drops what was read, where that is at least as much as what wasn't.
    fn compact(&mut self)
        ensures { self.new ≡ self.old }
    {
        let left = self.bytes.len() - self.start;
        if left <= self.start {
            self.bytes.rotate_left(self.start);
            self.bytes.truncate(left);
            self.start = 0;
        }
    }

    /// Leaves the first bytes behind.
    pub(crate) fn skip(&mut self, count: usize)
        requires { count ≤ length self.old }
        ensures { self.new ≡ drop count self.old }
    {
        self.start += count;
    }
}
