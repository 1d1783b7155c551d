//! What came of each call.
ghost use Rattle.std.specs.Prelude.{◌≡◌, OnOk};
ghost use Rattle.journal_explain.specs.Outcomes as outcomes;

use crate::outcome::Outcome;
use crate::row::Row;
use crate::telling::row_for;
use core_run::Run;
use poa_base::{Entry, WantMemory};
use std::alloc::Global;

/// What came of a call.
#[derive(Clone, Copy, Drop)]
pub struct Came {
    /// The number of the call among those that arrived, from 0 on.
    pub arrival: u64,
    /// The place of the entry with which it arrived, from 0 on.
    pub entry: u64,
    pub outcome: Outcome,
}

/// Notes of each call what the next entry of a run, at this place, makes of it.
pub(crate) fn note_came(
    alloc: Global,
    run: &Run,
    entry: &Entry,
    place: u64,
    came: &mut Vec<Came>,
) -> Result<(), WantMemory>
    ensures { OnOk result (came.new.items
        ≡ outcomes.came_with run.now.config run.now.run run.now.history entry.now place came.old.items) }
{
    match entry {
        Entry::Arrive { .. } => {
            came.push(Came {
                arrival: run.arrivals(),
                entry: place,
                outcome: Outcome::Unadmitted,
            })?;
        }
        Entry::Admit {
            worker,
            arrival,
            ..
        } => {
            let row = row_for(alloc, run, *worker, *arrival)?;
            decide(came, *arrival as usize, outcome_by(row));
        }
        _ => {}
    }
    Ok(())
}

/// What came of a call that was admitted by this row, or as a command.
fn outcome_by(row: Option<Row>) -> Outcome
    ensures { result ≡ outcomes.outcome_by row }
{
    match row {
        Some(row) => Outcome::Decided(row),
        None => Outcome::Command,
    }
}

/// This came of the call in this place.
fn decide(came: &mut Vec<Came>, place: usize, outcome: Outcome)
    ensures { came.new.items ≡ outcomes.decided place outcome came.old.items }
{
    if let Some(call) = came.get_mut(place) {
        call.outcome = outcome;
    }
}
