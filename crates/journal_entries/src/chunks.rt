//! A list that is kept in chunks.
ghost use Rattle.std.specs.Prelude.{◌≡◌, [], ◌∷◌, ◌++◌, ◌+◌, ◌*◌, ◌≤◌, ◌<◌, length, option_copied, IfOk, OnOk, OnErr, vec_len, vec_capacity};
ghost use Rattle.std.specs.List.{slice_get};
ghost use Rattle.journal_entries.specs.Chunked.{IsChunked, capacity_of, values};

use std::alloc::{AllocError, Global};
use std::marker::Model;
use std::mem;

/// How many values a chunk takes.
const SIZE: usize = 4096;

/// How many chunks there may be before the list of them has to grow: enough for 67,000,000 values.
const SPINE: usize = 16384;

/// How many chunks there are at most. No memory holds so many.
const MOST: usize = 1 << 48;

/// A list that grows by whole chunks, so that what it has is never copied. Contracts see the list, and how many values it
/// can take in all before it wants memory.
#[derive(Drop)]
pub(crate) struct Chunks<T> {
    alloc: Global,
    /// The chunks that are full.
    full: Vec<Vec<T>>,
    /// The chunk that is being filled.
    last: Vec<T>,
    /// The chunks that are empty.
    spare: Vec<Vec<T>>,
}

impl<T> Model for Chunks<T> {
    ghost use Rattle.std.specs.Prelude.{List, ℕ};
    ghost use Rattle.journal_entries.specs.Chunked.{IsChunked, capacity_of, values};

    ghost Value = { List T × ℕ };

    ghost view = { λ c. (values c.full.items c.last.items, capacity_of c.full c.spare) };

    ghost invariant = { λ c. IsChunked c.full c.last c.spare };
}

impl<T: Drop> Chunks<T> {
    /// The empty list, with its first chunk.
    pub fn new(alloc: Global) -> Result<Self, AllocError>
        ensures { IfOk result (λ chunks. chunks.0 ≡ []) }
    {
        Ok(Chunks {
            alloc,
            full: Vec::with_capacity(alloc, SPINE)?,
            last: Vec::with_capacity(alloc, SIZE)?,
            spare: Vec::new(alloc),
        })
    }

    /// How many values there are.
    pub fn len(&self) -> usize
        ensures { result ≡ length self.now.0 }
    {
        self.full.len() * SIZE + self.last.len()
    }

    /// The value at a place, lent.
    pub fn get(&self, place: usize) -> Option<&T>
        ensures { option_copied result ≡ slice_get self.now.0 place }
    {
        match at(&self.full, place / SIZE) {
            Some(chunk) => at(chunk, place % SIZE),
            None => at(&self.last, place - self.full.len() * SIZE),
        }
    }

    /// How many values it can still take.
    fn room(&self) -> usize
        ensures { length self.now.0 + result ≡ self.now.1 }
    {
        SIZE - self.last.len() + self.spare.len() * SIZE
    }

    /// Makes room for so many values more; the list is as it was.
    pub fn reserve(&mut self, more: usize) -> Result<(), AllocError>
        ensures same { self.new.0 ≡ self.old.0 }
        ensures room { OnOk result (length self.new.0 + more ≤ self.new.1) }
        ensures kept { self.old.1 ≤ self.new.1 }
    {
        while self.room() < more {
            self.add_chunk()?;
        }
        Ok(())
    }

    /// Adds an empty chunk.
    fn add_chunk(&mut self) -> Result<(), AllocError>
        ensures same { self.new.0 ≡ self.old.0 }
        ensures more { OnOk result (self.new.1 ≡ self.old.1 + 4096) }
        ensures kept { OnErr result (self.new.1 ≡ self.old.1) }
    {
        if self.full.len() + self.spare.len() >= MOST {
            return Err(AllocError);
        }
        self.full.try_reserve(self.spare.len() + 1)?;
        self.spare.try_reserve(1)?;
        self.spare
            .push_reserved(Vec::with_capacity(self.alloc, SIZE)?);
        Ok(())
    }

    /// Puts a value at the end. Takes no memory.
    pub fn push(&mut self, value: T)
        requires { length self.old.0 < self.old.1 }
        ensures items { self.new.0 ≡ self.old.0 ++ value ∷ [] }
        ensures capacity { self.new.1 ≡ self.old.1 }
    {
        turn_over(&mut self.full, &mut self.last, &mut self.spare);
        self.last.push_reserved(value);
    }
}

/// The value at a place of a slice.
fn at<T>(values: &[T], place: usize) -> Option<&T>
    ensures { option_copied result ≡ slice_get values.now place }
{
    values.get(place)
}

/// Where the last chunk is full, an empty one takes its place. Takes no memory.
fn turn_over<T>(full: &mut Vec<Vec<T>>, last: &mut Vec<T>, spare: &mut Vec<Vec<T>>)
    requires chunked { IsChunked full.old last.old spare.old }
    requires empty { vec_len last.old ≡ 4096 → 0 < vec_len spare.old }
    ensures chunked { IsChunked full.new last.new spare.new }
    ensures values { values full.new.items last.new.items ≡ values full.old.items last.old.items }
    ensures capacity { capacity_of full.new spare.new ≡ capacity_of full.old spare.old }
    ensures room { vec_len last.new < 4096 }
{
    if last.len() < SIZE {
        return;
    }
    if let Some(empty) = spare.pop() {
        full.push_reserved(mem::replace(last, empty));
    }
}
