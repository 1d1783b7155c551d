//! The entries of workers.
ghost use Rattle.std.specs.Prelude.{◌≡◌, ◌↔◌, ◌<◌, IfOk, IsTrue, true, None, Some};
ghost use Rattle.poa_base.specs.declared.Entry.TheVariants.{Abandon};
ghost use Rattle.core_arrivals.specs.Begun.{worker_of as maker_of};
ghost use Rattle.poa_history.specs.Entries.{is_turn};
ghost use Rattle.journal_audit.specs.Judging.{Judges};
ghost use Rattle.journal_audit.specs.Rules.{is_at_work as is_at_work_of};

use crate::breach::Breach;
use crate::rule::Rule;
use core_run::Run;
use poa_base::{Entry, WantMemory};
use poa_history::same::same_step;

/// How many workers a run has.
const WORKERS: u32 = 16;

/// An entry of a worker that there isn't, or that gave the run up.
fn not_at_work() -> Breach
    ensures { result ≡ record { rule = Rule.Worker; due = None } }
{
    Breach {
        rule: Rule::Worker,
        due: None,
    }
}

/// Another turn was due than the one that was taken, or none.
fn out_of_turn(due: Option<Entry>) -> Breach
    ensures { result ≡ record { rule = Rule.Turn; due = due } }
{
    Breach {
        rule: Rule::Turn,
        due,
    }
}

/// Whether there is such a worker, and it hasn't given the run up.
fn is_at_work(run: &Run, worker: u32) -> bool
    ensures { result ≡ is_at_work_of run.now.history worker }
{
    worker < WORKERS && !run.is_abandoned(worker)
}

/// A worker gives the run up.
pub(crate) fn abandon(run: &mut Run, worker: u32) -> Option<Breach>
    ensures { Judges (Abandon worker) run.old result run.new }
{
    if !is_at_work(run, worker) {
        return Some(not_at_work());
    }
    run.abandon(worker);
    None
}

/// The worker that makes a turn.
fn worker_of(entry: &Entry) -> u32
    requires { is_turn entry.now ≡ true }
    ensures { maker_of entry.now ≡ Some result }
{
    match entry {
        Entry::Admit { worker, .. }
        | Entry::Tried { worker, .. }
        | Entry::Incarnated { worker, .. }
        | Entry::Run { worker }
        | Entry::Done { worker }
        | Entry::TakeOut { worker, .. }
        | Entry::Etherealized { worker, .. } => *worker,
        _ => 0,
    }
}

/// A worker takes its next turn, where that is this entry.
pub(crate) fn turn(run: &mut Run, entry: &Entry) -> Result<Option<Breach>, WantMemory>
    requires { is_turn entry.now ≡ true }
    ensures { IfOk result (λ breach. Judges entry.now run.old breach run.new) }
{
    let worker = worker_of(entry);
    if !is_at_work(run, worker) {
        return Ok(Some(not_at_work()));
    }
    let Some(next) = run.next_turn(worker)? else {
        return Ok(Some(out_of_turn(None)));
    };
    if !same_step(&next, entry) {
        return Ok(Some(out_of_turn(Some(next))));
    }
    run.turn(next)?;
    Ok(None)
}
