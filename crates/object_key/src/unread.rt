//! The octets of a key that aren't read yet.
ghost use Rattle.std.specs.Prelude.{◌≡◌, ◌<◌, ◌++◌, ◌∷◌, [], ℕ, List, length, IsTrue, ◌↔◌, IfSome, IfNone};
ghost use Rattle.std.specs.Int.{w16, w32, to_be_bytes};

use std::marker::Model;

/// What is left to read of a text. What is read is taken from its front; a read that finds too
/// little takes nothing.
#[derive(Drop)]
pub(crate) struct Unread<'a> {
    rest: &'a [u8],
}

impl<'a> Model for Unread<'a> {
    ghost use Rattle.std.specs.Prelude.{List, ℕ};

    ghost Value = { List ℕ };

    ghost view = { λ u. u.rest.now };
}

impl<'a> Unread<'a> {
    /// All of a text.
    pub(crate) fn new(text: &'a [u8]) -> Self
        ensures { result ≡ text.now }
    {
        Unread { rest: text }
    }

    /// Whether nothing is left.
    pub(crate) fn is_empty(&self) -> bool
        ensures { IsTrue result ↔ (self.now ≡ []) }
    {
        self.rest.is_empty()
    }

    /// All that is left.
    pub(crate) fn rest(&self) -> &'a [u8]
        ensures { result.now ≡ self.now }
    {
        self.rest
    }

    /// What was read since all of `text` was left.
    pub(crate) fn passed(&self, text: &'a [u8]) -> &'a [u8]
        ensures { (part : List ℕ) → text.now ≡ part ++ self.now → result.now ≡ part }
    {
        let len = text.len().saturating_sub(self.rest.len());
        let (part, _) = text.split_at(len);
        part
    }

    /// The next octet.
    pub(crate) fn octet(&mut self) -> Option<u8>
        ensures some { IfSome result (λ n. self.old ≡ n ∷ self.new) }
        ensures none { IfNone result (self.old ≡ []) }
    {
        let [first, after @ ..] = self.rest else {
            return None;
        };
        self.rest = after;
        Some(*first)
    }

    /// The next octets, as many as `len` says.
    pub(crate) fn part(&mut self, len: usize) -> Option<&'a [u8]>
        ensures some { IfSome result (λ part. self.old ≡ part.now ++ self.new) }
        ensures len { IfSome result (λ part. length part.now ≡ len) }
        ensures none { IfNone result (length self.old < len) }
    {
        if self.rest.len() < len {
            return None;
        }
        let (part, after) = self.rest.split_at(len);
        self.rest = after;
        Some(part)
    }

    /// The next two octets as a number, the high one first.
    pub(crate) fn ushort(&mut self) -> Option<u16>
        ensures some { IfSome result (λ n. self.old ≡ to_be_bytes w16 n ++ self.new) }
        ensures none { IfNone result (length self.old < 2) }
    {
        let [a, b, after @ ..] = self.rest else {
            return None;
        };
        self.rest = after;
        Some(u16::from_be_bytes([*a, *b]))
    }

    /// The next four octets as a number, the high one first.
    pub(crate) fn ulong(&mut self) -> Option<u32>
        ensures some { IfSome result (λ n. self.old ≡ to_be_bytes w32 n ++ self.new) }
        ensures none { IfNone result (length self.old < 4) }
    {
        let [a, b, c, d, after @ ..] = self.rest else {
            return None;
        };
        self.rest = after;
        Some(u32::from_be_bytes([*a, *b, *c, *d]))
    }
}
