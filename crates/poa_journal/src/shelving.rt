//! Rows that are read one behind the other.
ghost use Rattle.std.specs.Prelude.{◌≡◌, ◌∷◌, ◌++◌, [], IfOk, None, OnOk, Some, map, true};
ghost use Rattle.poa_base.specs.Store.{states};
ghost use Rattle.text_words.specs.Path.{path_of};
ghost use Rattle.text_words.specs.Token.{Token, spell};
ghost use Rattle.poa_journal.specs.Shelving.{Ascends, HasBegun, IsAtLine, IsShelving, Shelves, StoresAll, Takes, last_from, rows_at, rows_in};
ghost use Rattle.poa_journal.specs.Whole.{is_above};

use crate::fault::JournalFault;
use crate::row::read_slot;
use poa_base::{Oid, Path, State, Store};
use std::alloc::{AllocError, Global};
use text_words::{WordFault, path};

/// Rows that were read: those of the last adapter wait, and the others are stored. They are stored from the last that waits
/// to the first, since a map looks for a key from its lowest on, and rows come in ascending order.
#[derive(Drop)]
pub(crate) struct Shelving<'a> {
    store: Store,
    /// The path of those that wait, and the word that writes it, which isn't read again while it comes again.
    path: Path,
    word: &'a [u8],
    /// The ids and the states of those that wait.
    waiting: Vec<(Oid, State)>,
}

impl<'a> Shelving<'a> {
    /// No rows. Takes no memory.
    pub(crate) fn new(alloc: Global) -> Self
        ensures none { rows_in result ≡ [] }
        ensures shelving { IsShelving result }
        ensures begun { HasBegun result }
    {
        Shelving {
            store: Store::new(alloc),
            path: Path::root(alloc),
            word: b"/",
            waiting: Vec::new(alloc),
        }
    }

    /// Takes the row of a line of this number, whose words these are behind `store`.
    pub(crate) fn take(
        &mut self,
        alloc: Global,
        line: u64,
        words: &[&'a [u8]],
    ) -> Result<(), JournalFault>
        requires shelving { IsShelving self.old }
        requires begun { HasBegun self.old }
        ensures taken { Takes result line (map (λ w. w.now) words.now) (rows_in self.old)
            (rows_in self.new) }
        ensures shelving { OnOk result (IsShelving self.new) }
        ensures begun { OnOk result (HasBegun self.new) }
    {
        match words {
            [adapter, slot @ ..] => self.take_slot(alloc, line, adapter, slot),
            [] => Err(JournalFault::BadLine { line }),
        }
    }

    // The same of the word of the adapter's path and those behind it.
    fn take_slot(
        &mut self,
        alloc: Global,
        line: u64,
        adapter: &'a [u8],
        slot: &[&'a [u8]],
    ) -> Result<(), JournalFault>
        requires shelving { IsShelving self.old }
        requires begun { HasBegun self.old }
        ensures taken { Takes result line (adapter.now ∷ map (λ w. w.now) slot.now)
            (rows_in self.old) (rows_in self.new) }
        ensures shelving { OnOk result (IsShelving self.new) }
        ensures begun { OnOk result (HasBegun self.new) }
    {
        let (oid, state) = match read_slot(alloc, slot) {
            Ok(slot) => slot,
            Err(fault) => return Err(at_line(fault, line)),
        };
        if self.is_written(adapter) {
            return self.add(line, oid, state);
        }
        match path(alloc, adapter) {
            Ok(path) => self.turn(line, path, adapter, oid, state),
            Err(fault) => Err(at_line(fault, line)),
        }
    }

    // Whether the word is the one that writes the path of those that wait.
    fn is_written(&self, word: &[u8]) -> bool
        ensures { result ≡ true → word.now ≡ self.now.word.now }
    {
        word == self.word
    }

    // Takes one more row of the adapter of those that wait.
    fn add(&mut self, line: u64, oid: Oid, state: State) -> Result<(), JournalFault>
        requires shelving { IsShelving self.old }
        requires begun { HasBegun self.old }
        ensures shelves { Shelves result line ((self.old.path, oid), state) (rows_in self.old)
            (rows_in self.new) }
        ensures shelving { OnOk result (IsShelving self.new) }
        ensures begun { OnOk result (HasBegun self.new) }
    {
        if !self.are_below(&self.path, &oid) {
            return Err(JournalFault::BadLine { line });
        }
        self.push(oid, state)?;
        Ok(())
    }

    // Takes the first row of another adapter, whose path this word writes.
    fn turn(
        &mut self,
        line: u64,
        path: Path,
        word: &'a [u8],
        oid: Oid,
        state: State,
    ) -> Result<(), JournalFault>
        requires shelving { IsShelving self.old }
        requires begun { HasBegun self.old }
        requires known { path_of word.now ≡ Some path }
        requires spells { word.now ≡ spell (Token.path path) }
        ensures shelves { Shelves result line ((path, oid), state) (rows_in self.old)
            (rows_in self.new) }
        ensures shelving { OnOk result (IsShelving self.new) }
        ensures begun { OnOk result (HasBegun self.new) }
    {
        if !self.are_below(&path, &oid) {
            return Err(JournalFault::BadLine { line });
        }
        self.store_waiting()?;
        self.path = path;
        self.word = word;
        self.push(oid, state)?;
        Ok(())
    }

    // Whether all rows stand below a place.
    fn are_below(&self, path: &Path, oid: &Oid) -> bool
        requires { HasBegun self.now }
        ensures { result ≡ is_above (last_from None (rows_in self.now)) (path.now, oid.now) }
    {
        match self.waiting.last() {
            None => true,
            Some((before, _)) => is_below(&self.path, before, path, oid),
        }
    }

    // Stores those that wait.
    fn store_waiting(&mut self) -> Result<(), AllocError>
        requires { IsShelving self.old }
        ensures rows { OnOk result (rows_in self.new ≡ rows_in self.old) }
        ensures shelving { OnOk result (IsShelving self.new) }
        ensures path { OnOk result (self.new.path ≡ self.old.path) }
        ensures none_waits { OnOk result (self.new.waiting.items ≡ []) }
    {
        store_all(&mut self.store, &self.path, &mut self.waiting)?;
        Ok(())
    }

    // One more row of the path waits.
    fn push(&mut self, oid: Oid, state: State) -> Result<(), AllocError>
        requires shelving { IsShelving self.old }
        requires above { is_above (last_from None (rows_in self.old)) (self.old.path, oid) ≡ true }
        ensures rows { OnOk result
            (rows_in self.new ≡ rows_in self.old ++ ((self.old.path, oid), state) ∷ []) }
        ensures shelving { OnOk result (IsShelving self.new) }
        ensures begun { OnOk result (HasBegun self.new) }
    {
        self.waiting.push((oid, state))?;
        Ok(())
    }

    /// The store of all rows.
    pub(crate) fn into_store(self) -> Result<Store, AllocError>
        requires { IsShelving self }
        ensures { IfOk result (λ store. states store ≡ rows_in self.entry) }
    {
        let Shelving {
            mut store,
            path,
            word: _,
            mut waiting,
        } = self;
        store_all(&mut store, &path, &mut waiting)?;
        Ok(store)
    }
}

// Whether a place stands below another.
fn is_below(path: &Path, oid: &Oid, next_path: &Path, next_oid: &Oid) -> bool
    ensures { result ≡ is_above (Some (path.now, oid.now)) (next_path.now, next_oid.now) }
{
    path.cmp(next_path).then(oid.cmp(next_oid)).is_lt()
}

// Stores all that waits of an adapter. On want of memory some of it may have been stored.
fn store_all(
    store: &mut Store,
    path: &Path,
    waiting: &mut Vec<(Oid, State)>,
) -> Result<(), AllocError>
    requires stored { StoresAll (states store.old) store.old }
    requires rises { Ascends None (states store.old ++ rows_at path.now waiting.old.items) }
    ensures all { OnOk result
        (StoresAll (states store.old ++ rows_at path.now waiting.old.items) store.new) }
    ensures none_waits { OnOk result (waiting.new.items ≡ []) }
{
    while let Some((oid, state)) = waiting.pop() {
        store.put(path, &oid, state)?;
    }
    Ok(())
}

// The fault of a line of this number with a word that wasn't read.
fn at_line(fault: WordFault, line: u64) -> JournalFault
    ensures { IsAtLine fault line result }
{
    match fault {
        WordFault::OutOfForm => JournalFault::BadLine { line },
        WordFault::WantMemory => JournalFault::WantMemory,
    }
}
