//! A source in memory that never fails.
ghost use Rattle.std.specs.Prelude.{◌≡◌, ◌≢◌, ℕ, ◌<◌, ◌≤◌, List, Bool, true, false, Option, Some, length, take, drop};
ghost use Rattle.outside.specs.Cause.{HasCause};
ghost use Rattle.outside.specs.Reading.{IsWithin, Delivers};
ghost use Rattle.outside.specs.Told.{IfTold};

use crate::reading::{Source, Took};
use std::marker::Model;

/// Bytes in memory, given in pieces. It isn't a waiting source, and its count of faults is always 0.
#[derive(Drop)]
pub struct SteadySource {
    bytes: Vec<u8>,
    start: usize,
    pieces: Vec<usize>,
    turn: usize,
}

impl Model for SteadySource {
    ghost use Rattle.std.specs.Prelude.{List, ℕ, drop, vec_len, ◌≤◌};

    ghost Value = { List ℕ };

    ghost view = { λ s. drop s.start s.bytes.items };

    ghost invariant = { λ s. s.start ≤ vec_len s.bytes };
}

impl SteadySource {
    /// A source of these bytes. The reads give pieces of at most the listed sizes in turn, from the
    /// first one again after the last; a size of 0 counts as 1. Without a size a read gives all that
    /// fits its buffer.
    pub fn new(bytes: Vec<u8>, pieces: Vec<usize>) -> Self
        ensures { result ≡ bytes.items }
    {
        SteadySource {
            bytes,
            start: 0,
            pieces,
            turn: 0,
        }
    }

    // The most that the next read gives.
    fn piece(&mut self) -> usize
        ensures some { 0 < result }
        ensures same { self.new ≡ self.old }
    {
        if self.turn >= self.pieces.len() {
            self.turn = 0;
        }
        if self.pieces.is_empty() {
            return usize::MAX;
        }
        let size = self.pieces[self.turn];
        self.turn += 1;
        size.max(1)
    }
}

impl Source for SteadySource {
    ghost left = { λ s. Some s };

    ghost is_waiting = { λ _. false };

    ghost read_faults = { λ _. 0 };

    ghost quiets = { λ _. 0 };

    fn read(&mut self, buf: &mut [u8]) -> Took
        requires { 0 < length buf.old }
        ensures within { IsWithin result (length buf.old) }
        ensures bytes { Delivers result buf.new self.old self.new }
        ensures never { result ≢ Took.Failed }
        ensures patient { result ≢ Took.Quiet }
    {
        let most = self.piece();
        let rest = &self.bytes[self.start..];
        if rest.is_empty() {
            return Took::End;
        }
        let count = copy_front(rest, buf, most);
        self.start += count;
        Took::Got(count)
    }
}

// Copies what is there, what fits and what is allowed; answers how much.
fn copy_front(from: &[u8], to: &mut [u8], most: usize) -> usize
    requires there { 0 < length from.now }
    requires room { 0 < length to.old }
    requires allowed { 0 < most }
    ensures some { 0 < result }
    ensures of_from { result ≤ length from.now }
    ensures fits { result ≤ length to.old }
    ensures copied { take result to.new ≡ take result from.now }
{
    let count = from.len().min(to.len()).min(most);
    to[..count].copy_from_slice(&from[..count]);
    count
}
