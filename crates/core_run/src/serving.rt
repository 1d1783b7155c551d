//! The servant of a request that a worker runs.
ghost use Rattle.std.specs.Prelude.{◌≡◌, ℕ, true, reverse, option_map, IfOk, IsOk};
ghost use Rattle.journal_entries.specs.Rows.{seen as entry_seen};
ghost use Rattle.history_standing.specs.Stages as begun;
ghost use Rattle.poa_history.specs.States as states;
ghost use Rattle.poa_history.specs.Runs.{IsRun};
ghost use Rattle.core_standing.specs.Answers.{AnswersAs};
ghost use Rattle.core_standing.specs.Seen.{seen};
ghost use Rattle.core_arrivals.specs.Begun.{only_ends};
ghost use Rattle.core_run.specs.Turning as turning;

use core_standing::Standing;
use core_state::servant_by;
use history_standing::Stage;
use journal_entries::{Entries, EntryView, Row};
use poa_base::{Config, Entry, Sid, Verdict, WantMemory};

/// Whether an entry admits an arrival.
fn admits(view: EntryView<'_>, arrival: u64) -> bool
    ensures { result ≡ turning.admits (entry_seen view.entry) arrival }
{
    match view {
        Row::Serve { arrival: of, .. } => u64::from(of) == arrival,
        Row::Whole(Entry::Admit { arrival: of, .. }) => *of == arrival,
        _ => false,
    }
}

/// The newest Admit of an arrival. Looks from the last entry back.
fn last_admit(entries: &Entries, arrival: u64) -> Option<EntryView<'_>>
    ensures { turning.verdict_in (option_map entry_seen result)
        ≡ turning.last_verdict (reverse entries.now.items) arrival }
{
    for place in (0..entries.len()).rev() {
        let view = entries.get(place)?;
        if admits(view, arrival) {
            return Some(view);
        }
    }
    None
}

/// The servant that an Admit gives its arrival.
fn servant_of(
    config: &Config,
    standing: &Standing,
    view: Option<EntryView<'_>>,
) -> Result<Option<Sid>, WantMemory>
    ensures { IfOk result
        (λ servant. servant ≡ states.servant_by config.now (seen standing.now)
        (turning.verdict_in (option_map entry_seen view.entry))) }
{
    match view {
        Some(Row::Serve { activation, .. }) => {
            servant_by(config, standing, Some(&Verdict::Serve(activation)))
        }
        Some(Row::Whole(Entry::Admit { verdict, .. })) => {
            servant_by(config, standing, Some(verdict))
        }
        _ => servant_by(config, standing, None),
    }
}

/// The servant of a request that a worker runs. `WantMemory` stands for a number that doesn't fit 32 bits, and is never
/// answered where what was begun is only to be ended.
pub fn servant_in(
    config: &Config,
    standing: &Standing,
    entries: &Entries,
    stage: Stage,
) -> Result<Option<Sid>, WantMemory>
    ensures servant { (run limit worker : ℕ)
        → IsRun config.now run limit (reverse entries.now.items)
        → AnswersAs config.now run (reverse entries.now.items) (seen standing.now)
        → stage ≡ begun.stage (reverse entries.now.items) worker
        → IfOk result (λ servant. servant
        ≡ states.servant_run config.now run (reverse entries.now.items) stage) }
    ensures ends { only_ends stage ≡ true → IsOk result }
{
    match stage {
        Stage::Serving(arrival) => servant_of(config, standing, last_admit(entries, arrival)),
        _ => Ok(None),
    }
}
