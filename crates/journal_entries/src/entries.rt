//! The list of a run's entries.
ghost use Rattle.std.specs.Prelude.{◌≡◌, [], ◌∷◌, ◌++◌, ◌+◌, ◌≤◌, ◌<◌, true, length, reverse, option_map, IfOk, OnOk};
ghost use Rattle.std.specs.List.{slice_get};
ghost use Rattle.journal_entries.specs.Rows.{HasRoomFor, is_brief, seen};

use crate::chunks::Chunks;
use crate::row::{EntryView, Row};
use poa_base::{Entry, WantMemory};
use std::alloc::Global;
use std::marker::Model;

/// The entries of a run, the oldest first, with room for more. Contracts see the list, how many entries it can take in all,
/// and how many of these that aren't brief.
#[derive(Drop)]
pub struct Entries {
    rows: Chunks<Row<usize>>,
    /// The entries that don't go into a row.
    wholes: Chunks<Entry>,
}

impl Model for Entries {
    ghost use Rattle.std.specs.Prelude.{◌-◌, length, map};
    ghost use Rattle.journal_entries.specs.Rows.{AreWithin, Listed, entry_of};

    ghost Value = { Listed };

    ghost view = { λ e. record
        { items = map (entry_of e.wholes.0) e.rows.0; capacity = e.rows.1; spare = e.wholes.1 - length e.wholes.0 } };

    ghost invariant = { λ e. AreWithin (length e.wholes.0) e.rows.0 };
}

impl Entries {
    /// The empty list.
    pub fn new(alloc: Global) -> Result<Self, WantMemory>
        ensures { IfOk result (λ entries. entries.items ≡ []) }
    {
        Ok(Entries {
            rows: Chunks::new(alloc)?,
            wholes: Chunks::new(alloc)?,
        })
    }

    /// How many entries there are.
    pub fn len(&self) -> usize
        ensures { result ≡ length self.now.items }
    {
        self.rows.len()
    }

    /// The entry at a place.
    pub fn get(&self, place: usize) -> Option<EntryView<'_>>
        ensures { option_map seen result ≡ slice_get self.now.items place }
    {
        self.rows.get(place)?.view(&self.wholes)
    }

    /// The newest entry.
    pub fn last(&self) -> Option<EntryView<'_>>
        ensures { option_map seen result ≡ slice_get (reverse self.now.items) 0 }
    {
        self.get(self.len().checked_sub(1)?)
    }

    /// A copy of the entries as a plain list.
    pub fn to_vec(&self, alloc: Global) -> Result<Vec<Entry>, WantMemory>
        ensures { IfOk result (λ entries. entries.items ≡ self.now.items) }
    {
        let mut entries = Vec::with_capacity(alloc, self.len())?;
        for place in 0..self.len() {
            if let Some(view) = self.get(place) {
                push_copy(view, &mut entries)?;
            }
        }
        Ok(entries)
    }

    /// Makes room for so many entries more, one of them whatever it is; what it has is as it was.
    pub fn reserve(&mut self, more: usize) -> Result<(), WantMemory>
        ensures items { self.new.items ≡ self.old.items }
        ensures room { OnOk result (length self.new.items + more ≤ self.new.capacity) }
        ensures spare { OnOk result (0 < self.new.spare) }
        ensures kept { self.old.capacity ≤ self.new.capacity }
    {
        self.rows.reserve(more)?;
        self.wholes.reserve(1)
    }

    /// Puts an entry at the end. Takes no memory. What may still be kept whole is as before where the entry isn't.
    #[tactic(auto, using(crate::proofs::Rowing::within_brief))]
    pub fn push(&mut self, entry: Entry)
        requires { HasRoomFor entry self.old }
        ensures items { self.new.items ≡ self.old.items ++ entry ∷ [] }
        ensures capacity { self.new.capacity ≡ self.old.capacity }
        ensures spare { is_brief entry ≡ true → self.new.spare ≡ self.old.spare }
    {
        match Row::of(&entry) {
            Some(row) => {
                drop(entry);
                self.rows.push(row);
            }
            None => {
                let at = self.wholes.len();
                self.wholes.push(entry);
                self.rows.push(Row::Whole(at));
            }
        }
    }
}

/// Puts a copy of an entry at the end of a list.
fn push_copy(view: EntryView<'_>, entries: &mut Vec<Entry>) -> Result<(), WantMemory>
    ensures { OnOk result (entries.new.items ≡ entries.old.items ++ seen view.entry ∷ []) }
{
    entries.push(view.to_entry()?)?;
    Ok(())
}
