//! A diary of many writers.
ghost use Rattle.std.specs.Prelude.{◌≡◌, ◌<◌, ◌≤◌, length};
ghost use Rattle.poa_shared_tests.specs.Notes.{HasWriters};

use seat_lock::{Chronicle, WantMemory};
use std::alloc::Global;

/// One entry: who wrote it, and which of its entries it is, from 0 on.
#[derive(Clone, Copy, PartialEq, Eq)]
pub struct Note {
    pub writer: u64,
    pub number: u64,
}

/// The entries of all writers, in their order.
#[derive(Drop)]
pub struct Diary {
    pub writers: u64,
    pub notes: Vec<Note>,
    ghost counted: { writers ≤ length notes.items },
    ghost known: { HasWriters notes.items writers },
}

impl Chronicle for Diary {
    type Givens = ();

    type Entry = Note;

    ghost use Rattle.std.specs.Prelude.{Some};

    ghost givens = { λ _. tt };

    ghost history = { λ d. d.notes.items };

    ghost owner = { λ n. Some n.writer };
}

impl Diary {
    ghost use Rattle.std.specs.Prelude.{[], ◌∷◌, ◌++◌, IfOk, OnOk, OnErr};
    ghost use Rattle.poa_shared_tests.specs.Notes.{note, IsNew};

    /// A diary with no entry.
    pub fn new(alloc: Global) -> Diary
        ensures { result.notes.items ≡ [] }
    {
        Diary {
            writers: 0,
            notes: Vec::new(alloc),
        }
    }

    /// Adds the first entry of a new writer, and gives the writer's number.
    pub fn enter(&mut self) -> Result<u64, WantMemory>
        ensures ok { IfOk result
            (λ writer. self.new.notes.items ≡ self.old.notes.items ++ note writer 0 ∷ []) }
        ensures fresh { IfOk result (IsNew self.old.notes.items) }
        ensures err { OnErr result (self.new.notes.items ≡ self.old.notes.items) }
    {
        let writer = self.writers;
        self.notes.push(Note { writer, number: 0 })?;
        self.writers = writer + 1;
        Ok(writer)
    }

    /// Adds an entry of a writer that entered.
    pub fn add(&mut self, entry: Note) -> Result<(), WantMemory>
        requires { entry.writer < self.old.writers }
        ensures ok { OnOk result (self.new.notes.items ≡ self.old.notes.items ++ entry ∷ []) }
        ensures err { OnErr result (self.new.notes.items ≡ self.old.notes.items) }
    {
        self.notes.push(entry)?;
        Ok(())
    }
}
