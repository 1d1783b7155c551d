//! Which entry decides an arrival.
ghost use Rattle.std.specs.Prelude.{◌≡◌, ◌&&◌, reverse, option_copied, IfOk};
ghost use Rattle.poa_history.specs.Replies as replies;
ghost use Rattle.poa_history.specs.Settling as settling;
ghost use Rattle.history_standing.specs.Stages as begun;

use crate::settling::settles;
use core_outboxes::may_decide;
use poa_base::{Attempt, Entry, Verdict, WantMemory};
use poa_history::Run;
use poa_history::workers::{admitted, arrival_in, brings, is_at, stage};

/// Whether the arrival is the one that the worker is at.
pub fn is_at_work(past: &[Entry], worker: u32, arrival: u64) -> bool
    ensures { result ≡ begun.is_at arrival
        (begun.arrival_in (begun.stage (reverse past.now) worker)) }
{
    is_at(arrival, arrival_in(stage(past, worker)))
}

/// Whether an entry, after those before it, decides the arrival.
fn is_decided_by(past: &[Entry], entry: &Entry, arrival: u64) -> bool
    ensures { result ≡ replies.is_decided_by (reverse past.now) entry.now arrival }
{
    match entry {
        Entry::Admit { arrival: of, .. } => *of == arrival && may_decide(entry),
        Entry::Tried {
            answer: Attempt::Yes { .. },
            ..
        } => false,
        Entry::Tried { worker, .. } | Entry::Run { worker } => is_at_work(past, *worker, arrival),
        Entry::Incarnated { worker, answer } => {
            !brings(answer) && is_at_work(past, *worker, arrival)
        }
        _ => false,
    }
}

fn is_waiting(verdict: Option<&Verdict>) -> bool
    ensures { result ≡ replies.is_waiting (option_copied verdict.entry) }
{
    match verdict {
        Some(Verdict::Wait) => true,
        _ => false,
    }
}

/// Whether the arrival is a command that waits, whose condition holds after the history.
fn is_settled(run: &Run<'_>, history: &[Entry], arrival: u64) -> Result<bool, WantMemory>
    ensures { IfOk result
        (λ settled. settled ≡
        (replies.is_waiting (begun.admitted (reverse history.now) arrival)
        && settling.settles run.now.config.now run.now.number
        (reverse history.now) arrival)) }
{
    if is_waiting(admitted(history, arrival)) {
        settles(run, history, arrival)
    } else {
        Ok(false)
    }
}

/// Whether an entry has decided the arrival.
pub fn decided(run: &Run<'_>, history: &[Entry], arrival: u64) -> Result<bool, WantMemory>
    ensures { IfOk result
        (λ decided. decided ≡ replies.decided run.now.config.now run.now.number
        (reverse history.now) arrival) }
{
    let mut decided = false;
    for (i, entry) in history.iter().enumerate() {
        if is_decided_by(&history[..i], entry, arrival) {
            decided = true;
        }
        if !decided {
            decided = is_settled(run, &history[..i + 1], arrival)?;
        }
    }
    Ok(decided)
}
