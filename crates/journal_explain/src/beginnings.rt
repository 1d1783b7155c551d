//! With which entries the activations began.
ghost use Rattle.std.specs.Prelude.{◌≡◌, [], IfOk, OnOk};
ghost use Rattle.journal_explain.specs.Serving as serving;
ghost use Rattle.journal_explain.specs.Watching.{Counts, begun_by};

use crate::activity::count_begun;
use core_run::Run;
use poa_base::WantMemory;
use std::alloc::Global;

/// With which entries the activations began.
#[derive(Drop)]
pub struct Beginnings {
    /// How many are the configuration's, which have the first numbers.
    pub first: u32,
    /// How many were begun, with these.
    pub count: u32,
    /// The entries that began the others, by their places in the journal, from 0 on, in the order of their numbers.
    pub rows: Vec<u64>,
}

impl Beginnings {
    /// Of a run of which no entry has been seen.
    pub(crate) fn new(alloc: Global, run: &Run) -> Result<Self, WantMemory>
        ensures first { IfOk result (λ beginnings. beginnings.first
            ≡ serving.begun_in run.now.config run.now.run run.now.history) }
        ensures count { IfOk result (λ beginnings. beginnings.count
            ≡ serving.begun_in run.now.config run.now.run run.now.history) }
        ensures rows { IfOk result (λ beginnings. beginnings.rows.items ≡ []) }
    {
        let count = count_begun(run)?;
        Ok(Beginnings {
            first: count,
            count,
            rows: Vec::new(alloc),
        })
    }

    /// Notes whether an activation was begun with the entry at this place, by the run behind it.
    pub(crate) fn note(&mut self, run: &Run, place: u64) -> Result<(), WantMemory>
        ensures { OnOk result (Counts run.now place self.old self.new) }
    {
        let count = count_begun(run)?;
        if self.count < count {
            self.rows.push(place)?;
        }
        self.count = count;
        Ok(())
    }

    /// The entry that began an activation; none where it is one of the configuration's.
    pub(crate) fn told(&self, activation: Option<u32>) -> Option<u64>
        ensures { result ≡ begun_by self.now activation }
    {
        match activation {
            Some(number) => self.at(number),
            None => None,
        }
    }

    fn at(&self, number: u32) -> Option<u64>
        ensures { result ≡ serving.beginning_at self.now.first self.now.rows.items number }
    {
        if number < self.first {
            return None;
        }
        let place = (number - self.first) as usize;
        self.rows.as_slice().get(place).copied()
    }
}
