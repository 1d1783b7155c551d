//! Whether two steps of workers are one and the same.
ghost use Rattle.std.specs.Prelude.{◌≡◌, ◌↔◌, IsTrue, true};
ghost use Rattle.poa_base.specs.declared.Entry.{Entry};
ghost use Rattle.poa_history.specs.Entries.{is_turn};

use poa_base::{Attempt, Entry, Incarnation, Verdict};

/// Whether it is the Admit of that arrival, with that verdict.
fn is_admit(entry: &Entry, worker: u32, arrival: u64, verdict: &Verdict) -> bool
    ensures { IsTrue result ↔ (entry.now ≡ Entry.Admit worker arrival verdict.now) }
{
    match entry {
        Entry::Admit {
            worker: by,
            arrival: of,
            verdict: with,
        } => *by == worker && (*of == arrival && with == verdict),
        _ => false,
    }
}

/// Whether it is the Tried with that answer.
fn is_tried(entry: &Entry, worker: u32, answer: &Attempt) -> bool
    ensures { IsTrue result ↔ (entry.now ≡ Entry.Tried worker answer.now) }
{
    match entry {
        Entry::Tried {
            worker: by,
            answer: with,
        } => *by == worker && with == answer,
        _ => false,
    }
}

/// Whether it is the Incarnated with that answer.
fn is_incarnated(entry: &Entry, worker: u32, answer: &Incarnation) -> bool
    ensures { IsTrue result ↔ (entry.now ≡ Entry.Incarnated worker answer.now) }
{
    match entry {
        Entry::Incarnated {
            worker: by,
            answer: with,
        } => *by == worker && with == answer,
        _ => false,
    }
}

/// Whether it is the worker's Run.
fn is_run(entry: &Entry, worker: u32) -> bool
    ensures { IsTrue result ↔ (entry.now ≡ Entry.Run worker) }
{
    match entry {
        Entry::Run { worker: by } => *by == worker,
        _ => false,
    }
}

/// Whether it is the worker's Done.
fn is_done(entry: &Entry, worker: u32) -> bool
    ensures { IsTrue result ↔ (entry.now ≡ Entry.Done worker) }
{
    match entry {
        Entry::Done { worker: by } => *by == worker,
        _ => false,
    }
}

/// Whether it is the TakeOut of that activation.
fn is_takeout(entry: &Entry, worker: u32, activation: u32, etherealize: bool) -> bool
    ensures { IsTrue result ↔ (entry.now ≡ Entry.TakeOut worker activation etherealize) }
{
    match entry {
        Entry::TakeOut {
            worker: by,
            activation: of,
            etherealize: told,
        } => *by == worker && (*of == activation && *told == etherealize),
        _ => false,
    }
}

/// Whether it is the Etherealized with those flags.
fn is_etherealized(entry: &Entry, worker: u32, cleanup: bool, remaining: bool) -> bool
    ensures { IsTrue result ↔ (entry.now ≡ Entry.Etherealized worker cleanup remaining) }
{
    match entry {
        Entry::Etherealized {
            worker: by,
            cleanup: cleans,
            remaining: remains,
        } => *by == worker && (*cleans == cleanup && *remains == remaining),
        _ => false,
    }
}

/// Whether a step is that entry, which a worker makes.
pub fn same_step(step: &Entry, entry: &Entry) -> bool
    requires { is_turn entry.now ≡ true }
    ensures { IsTrue result ↔ (step.now ≡ entry.now) }
{
    match entry {
        Entry::Admit {
            worker,
            arrival,
            verdict,
        } => is_admit(step, *worker, *arrival, verdict),
        Entry::Tried { worker, answer } => is_tried(step, *worker, answer),
        Entry::Incarnated { worker, answer } => is_incarnated(step, *worker, answer),
        Entry::Run { worker } => is_run(step, *worker),
        Entry::Done { worker } => is_done(step, *worker),
        Entry::TakeOut {
            worker,
            activation,
            etherealize,
        } => is_takeout(step, *worker, *activation, *etherealize),
        Entry::Etherealized {
            worker,
            cleanup,
            remaining,
        } => is_etherealized(step, *worker, *cleanup, *remaining),
        _ => false,
    }
}
