//! What each worker has begun, and which arrivals are admitted.
ghost use Rattle.std.specs.Prelude.{◌≡◌, ◌∷◌, List, option_copied, reverse};
ghost use Rattle.poa_base.specs.declared.Entry.{Entry};
ghost use Rattle.history_standing.specs.Stages as begun;

use history_standing::Stage;
use poa_base::{Attempt, Entry, Incarnation, Verdict};

/// Whether an incarnation brought a servant.
pub fn brings(answer: &Incarnation) -> bool
    ensures { result ≡ begun.brings answer.now }
{
    match answer {
        Incarnation::Fresh(_) | Incarnation::Named(_) => true,
        Incarnation::Double | Incarnation::Forward(_) | Incarnation::Raise(_) => false,
    }
}

/// What the Admit of an arrival begins.
fn begun_by(arrival: u64, verdict: &Verdict) -> Stage
    ensures { result ≡ begun.begun_by arrival verdict.now }
{
    match verdict {
        Verdict::Serve(_) | Verdict::Preset(_) | Verdict::Locator(_) => Stage::Serving(arrival),
        Verdict::Incarnate(number) => Stage::Incarnating(arrival, *number),
        Verdict::Try => Stage::Trying(arrival),
        _ => Stage::Free,
    }
}

/// What follows an incarnation.
fn incarnated(answer: &Incarnation, stage: Stage) -> Stage
    ensures { result ≡ begun.incarnated answer.now stage }
{
    match stage {
        Stage::Incarnating(arrival, _) => {
            if brings(answer) {
                Stage::Serving(arrival)
            } else {
                Stage::Free
            }
        }
        _ => Stage::Free,
    }
}

/// What follows a Run.
fn ran(stage: Stage) -> Stage
    ensures { result ≡ begun.ran stage }
{
    match stage {
        Stage::Serving(arrival) => Stage::Ran(arrival),
        _ => Stage::Free,
    }
}

/// What a worker has begun and not ended.
pub fn stage(history: &[Entry], worker: u32) -> Stage
    ensures { result ≡ begun.stage (reverse history.now) worker }
{
    let mut stage = Stage::Free;
    for entry in history {
        stage = stage_after(entry, worker, stage);
    }
    stage
}

/// What a worker has begun after an entry, by what it had begun before.
pub fn stage_after(entry: &Entry, worker: u32, stage: Stage) -> Stage
    ensures { (past : List Entry) → stage ≡ begun.stage past worker
        → result ≡ begun.stage (entry.now ∷ past) worker }
{
    match entry {
        Entry::Admit {
            worker: by,
            arrival,
            verdict,
        } if *by == worker => begun_by(*arrival, verdict),
        Entry::Incarnated { worker: by, answer } if *by == worker => incarnated(answer, stage),
        Entry::Run { worker: by } if *by == worker => ran(stage),
        Entry::TakeOut {
            worker: by,
            activation,
            etherealize: true,
        } if *by == worker => Stage::Removing(*activation),
        Entry::TakeOut { worker: by, .. }
        | Entry::Tried { worker: by, .. }
        | Entry::Done { worker: by }
        | Entry::Etherealized { worker: by, .. }
            if *by == worker => { Stage::Free }
        _ => stage,
    }
}

/// The arrival that a worker is at.
pub fn arrival_in(stage: Stage) -> Option<u64>
    ensures { result ≡ begun.arrival_in stage }
{
    match stage {
        Stage::Trying(arrival)
        | Stage::Incarnating(arrival, _)
        | Stage::Serving(arrival)
        | Stage::Ran(arrival) => Some(arrival),
        Stage::Removing(_) | Stage::Free => None,
    }
}

/// Whether the arrival is that one.
pub fn is_at(arrival: u64, at: Option<u64>) -> bool
    ensures { result ≡ begun.is_at arrival at }
{
    match at {
        Some(other) => other == arrival,
        None => false,
    }
}

/// The verdict by which an arrival stands admitted. Looks from the last entry back.
pub fn admitted<'a>(history: &'a [Entry], arrival: u64) -> Option<&'a Verdict>
    ensures { option_copied result ≡ begun.admitted (reverse history.now) arrival }
{
    for i in (0..history.len()).rev() {
        match &history[i] {
            Entry::Admit {
                arrival: of,
                verdict,
                ..
            } => {
                if *of == arrival {
                    return Some(verdict);
                }
            }
            Entry::Tried {
                worker,
                answer: Attempt::Yes { .. },
            } => {
                if is_at(arrival, arrival_in(stage(&history[..i], *worker))) {
                    return None;
                }
            }
            _ => {}
        }
    }
    None
}

/// Whether an Abandon of the worker stands.
pub fn is_abandoned(history: &[Entry], worker: u32) -> bool
    ensures { result ≡ begun.is_abandoned (reverse history.now) worker }
{
    let mut found = false;
    for entry in history {
        if let Entry::Abandon { worker: by } = entry {
            if *by == worker {
                found = true;
            }
        }
    }
    found
}
