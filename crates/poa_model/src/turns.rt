//! The next entry of a worker: what it has begun goes on, else a removal that is due, else the next
//! arrival is admitted.
ghost use Rattle.std.specs.Option.{option_or};
ghost use Rattle.std.specs.Prelude.{◌≡◌, reverse, IfOk};
ghost use Rattle.history_standing.specs.declared.stage.Stage.TheVariants.{Free};
ghost use Rattle.poa_history.specs.Turns as turns;

use crate::verdicts::slow_verdict;
use core_standing::standing_of;
use core_turns::{going_on, removal};
use history_standing::Stage;
use poa_base::{Entry, WantMemory};
use poa_history::Run;
use poa_history::calls::arrivals;
use poa_history::workers::{admitted, stage};

/// The Admit of an arrival that is ready for the worker.
fn admission_of(
    run: &Run<'_>,
    history: &[Entry],
    worker: u32,
    arrival: u64,
) -> Result<Option<Entry>, WantMemory>
    ensures { IfOk result
        (λ entry. entry ≡ turns.admission_of run.now.config.now run.now.number
        (reverse history.now) worker arrival) }
{
    if admitted(history, arrival).is_some() {
        return Ok(None);
    }
    match slow_verdict(run, history, arrival, worker)? {
        Some(verdict) => Ok(Some(Entry::Admit {
            worker,
            arrival,
            verdict,
        })),
        None => Ok(None),
    }
}

/// What was found, else the Admit of an arrival that is ready for the worker.
fn or_admission(
    run: &Run<'_>,
    history: &[Entry],
    worker: u32,
    arrival: u64,
    found: Option<Entry>,
) -> Result<Option<Entry>, WantMemory>
    ensures { IfOk result
        (λ entry. entry ≡ option_or found
        (turns.admission_of run.now.config.now run.now.number
        (reverse history.now) worker arrival)) }
{
    match found {
        Some(entry) => Ok(Some(entry)),
        None => admission_of(run, history, worker, arrival),
    }
}

/// The least arrival that is ready is admitted.
fn admission(run: &Run<'_>, history: &[Entry], worker: u32) -> Result<Option<Entry>, WantMemory>
    ensures { IfOk result
        (λ entry. entry ≡ turns.admission run.now.config.now run.now.number
        (reverse history.now) worker) }
{
    let mut found = None;
    for arrival in 0..arrivals(history) {
        found = or_admission(run, history, worker, arrival, found)?;
    }
    Ok(found)
}

/// The next entry of a worker that has begun nothing.
fn next_free(run: &Run<'_>, history: &[Entry], worker: u32) -> Result<Option<Entry>, WantMemory>
    ensures { IfOk result
        (λ entry. entry ≡ turns.next_of run.now.config.now run.now.number
        (reverse history.now) worker Free) }
{
    let standing = standing_of(run.alloc, run.config, run.number, history)?;
    match removal(run.config, &standing, worker) {
        Some(entry) => Ok(Some(entry)),
        None => admission(run, history, worker),
    }
}

/// The entry that a worker makes next after a history that stands oldest first; none where it has
/// nothing to do.
#[tactic(auto, unfolding(poa_history::specs::Turns::turn))]
pub fn slow_next(run: &Run<'_>, history: &[Entry], worker: u32) -> Result<Option<Entry>, WantMemory>
    ensures { IfOk result
        (λ entry. entry ≡ turns.turn run.now.config.now run.now.number
        (reverse history.now) worker) }
{
    match stage(history, worker) {
        Stage::Free => next_free(run, history, worker),
        begun => {
            let standing = standing_of(run.alloc, run.config, run.number, history)?;
            going_on(run.config, &standing, worker, begun)
        }
    }
}
