//! The lines of an administrator.
ghost use Rattle.std.specs.Prelude.{◌≡◌, ◌+◌, ◌<◌, ◌≤◌, ◌^◌, ◌++◌, ◌∷◌, ℕ, suc, List, [], length, take, drop, true, OnOk, OnErr, IfOk, IfSome, MatchOption};
ghost use Rattle.text_words.specs.Cuts.{lacks};
ghost use Rattle.session_laws.specs.Hearing.{Heard, Stop};
ghost use Rattle.session_laws.specs.Lines.{is_long as is_long_line, is_spoken as is_spoken_line, without_return as without_return_of};
ghost use Rattle.session_laws.specs.Expecting.{OfLines};
ghost use Rattle.session_laws.specs.HearingPieces.{AsTold, Speaks, TakesBytes};

use crate::told::Told;
use admin_line::read_line;
use poa_base::{Call, WantMemory};
use std::alloc::Global;
use std::marker::Model;

/// The most bytes that a line has.
const LONGEST: usize = 4096;

/// Cuts what an administrator sends into lines, fed in any pieces.
///
/// What was read stays in front until it is as long as what wasn't. So a byte is moved at most once on average, and the
/// buffer holds at most twice what is unread.
#[derive(Drop)]
pub struct LineCutter {
    bytes: Vec<u8>,
    start: usize,
    /// The place of the first unread byte.
    place: u64,
    /// The number of the next line.
    number: u64,
}

impl Model for LineCutter {
    ghost use Rattle.std.specs.Prelude.{◌+◌, ◌<◌, ◌≤◌, ◌^◌, drop, length, vec_len};
    ghost use Rattle.session_laws.specs.Expecting.{Cutting};

    ghost Value = { Cutting };

    ghost view = { λ l. record { place = l.place; number = l.number; unread = drop l.start l.bytes.items } };

    ghost invariant = { λ l. (l.start ≤ vec_len l.bytes) × (l.number ≤ l.place + 1)
        × (l.place + length (drop l.start l.bytes.items) < 2 ^ 62) };
}

impl LineCutter {
    /// A cutter that was fed nothing.
    pub fn new(alloc: Global) -> Self
        ensures { result ≡ record { place = 0; number = 1; unread = [] } }
    {
        LineCutter {
            bytes: Vec::new(alloc),
            start: 0,
            place: 0,
            number: 1,
        }
    }

    /// Puts a piece behind the bytes fed so far. Where no memory is left, nothing is fed.
    pub fn feed(&mut self, piece: &[u8]) -> Result<(), WantMemory>
        requires { self.old.place + length self.old.unread + length piece.now < 2 ^ 62 }
        ensures fed { OnOk result
            (self.new ≡ record self.old { unread = self.old.unread ++ piece.now }) }
        ensures refused { OnErr result (self.new ≡ self.old) }
    {
        self.compact();
        self.bytes.extend_from_slice(piece)
    }

    /// What the next line says. A line that is too long is told as soon as so many bytes are there.
    pub fn next(&mut self, alloc: Global) -> Result<Told, WantMemory>
        ensures told { IfOk result (λ t. AsTold t (OfLines self.old) (OfLines self.new)) }
        ensures shorter { IfOk result
            (λ t. TakesBytes t (length self.old.unread) (length self.new.unread)) }
        ensures reached { self.new.place + length self.new.unread
            ≤ self.old.place + length self.old.unread }
    {
        let unread = self.unread();
        let Some((raw, _)) = split_line(unread) else {
            if is_long(unread) {
                return Ok(Told::Bad { at: self.place });
            }
            let have = unread.len() as u64;
            return Ok(Told::More { have });
        };
        if is_long(raw) {
            return Ok(Told::Bad { at: self.place });
        }
        let count = raw.len();
        let told = speak(alloc, self.number, without_return(raw))?;
        self.skip_line(count);
        Ok(told)
    }

    /// The bytes that were fed and not read.
    fn unread(&self) -> &[u8]
        ensures { result.now ≡ self.now.unread }
    {
        &self.bytes[self.start..]
    }

    /// Leaves a line of so many bytes behind, and its LF.
    fn skip_line(&mut self, count: usize)
        requires { count + 1 ≤ length self.old.unread }
        ensures { self.new ≡ record {
          place = self.old.place + count
              + 1;
          number = suc self.old.number;
          unread = drop (count + 1) self.old.unread;
        } }
    {
        let end = self.start + count;
        self.start = end + 1;
        self.place = self.place + count as u64 + 1;
        self.number += 1;
    }

    /// Drops what was read, where that is at least as much as what wasn't.
    fn compact(&mut self)
        ensures { self.new ≡ self.old }
    {
        let left = self.bytes.len() - self.start;
        if left <= self.start {
            self.bytes.rotate_left(self.start);
            self.bytes.truncate(left);
            self.start = 0;
        }
    }
}

// The first line, without its LF, and what stands behind that. None where no LF has come.
fn split_line(text: &[u8]) -> Option<(&[u8], &[u8])>
    ensures clear { IfSome result (λ x. lacks 10 x.0.now ≡ true) }
    ensures parts { MatchOption result (lacks 10 text.now ≡ true)
        (λ x. text.now ≡ x.0.now ++ 10 ∷ x.1.now) }
{
    for (i, byte) in text.iter().enumerate() {
        if *byte == b'\n' {
            return Some((&text[..i], &text[i + 1..]));
        }
    }
    None
}

// A line without the CR that may end it.
fn without_return(raw: &[u8]) -> &[u8]
    ensures { result.now ≡ without_return_of raw.now }
{
    match raw {
        [front @ .., last] => { if *last == b'\r' { front } else { raw } }
        [] => raw,
    }
}

// Whether a line is longer than a line may be.
fn is_long(raw: &[u8]) -> bool
    ensures { result ≡ is_long_line raw.now }
{
    without_return(raw).len() > LONGEST
}

// Whether a line gives a call: it isn't empty, and no comment.
fn is_spoken(line: &[u8]) -> bool
    ensures { result ≡ is_spoken_line line.now }
{
    match line {
        [first, ..] => *first != b'#',
        [] => false,
    }
}

// What a line of this number says, without the CR that may end it.
fn speak(alloc: Global, number: u64, line: &[u8]) -> Result<Told, WantMemory>
    requires { length line.now ≤ 4096 }
    ensures { IfOk result (Speaks number line.now) }
{
    if !is_spoken(line) {
        return Ok(Told::Nothing);
    }
    let command = read_line(alloc, line)?;
    let call = Call::Line { number, command };
    let size = line.len() as u64;
    Ok(Told::Call { call, size })
}
