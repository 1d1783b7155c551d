//! What an entry is to a call.
ghost use Rattle.std.specs.Prelude.{◌≡◌, ◌==◌, ◌<◌, IfOk, Some, None, if◌then◌else◌};
ghost use Rattle.journal_audit.specs.Judging.{Follows};
ghost use Rattle.journal_explain.specs.Stories as stories;
ghost use Rattle.journal_explain.specs.Watching as watching;

use crate::deciding::row_of;
use crate::event::Event;
use crate::facing::facts;
use crate::next::Next;
use crate::row::Row;
use crate::servant::Servant;
use crate::service::service_with;
use core_run::Run;
use poa_base::{Entry, TryClone, WantMemory};
use poa_history::workers::{arrival_in, is_at};
use std::alloc::Global;

/// How many workers a run has.
const WORKERS: u32 = 16;

/// Whether the next entry of a run, where it may follow, speaks of a call.
pub(crate) fn speaks(run: &Run, entry: &Entry, arrival: u64) -> bool
    ensures { Follows run.now entry.now
        → result ≡ watching.speaks_of run.now.history entry.now arrival }
{
    match entry {
        Entry::Arrive { .. } => run.arrivals() == arrival,
        Entry::Admit {
            arrival: admitted,
            ..
        } => *admitted == arrival,
        Entry::Tried { worker, .. }
        | Entry::Incarnated { worker, .. }
        | Entry::Run { worker }
        | Entry::Done { worker } => is_working(run, *worker, arrival),
        _ => false,
    }
}

/// Whether what the worker has begun is for the call.
fn is_working(run: &Run, worker: u32, arrival: u64) -> bool
    ensures { worker < WORKERS → result ≡ watching.is_working run.now.history worker arrival }
{
    worker < WORKERS && is_at(arrival, arrival_in(run.stage(worker)))
}

/// What the next entry of a run, where it may follow, is to a call, beside the reply that is collected with it.
pub(crate) fn event_of(
    alloc: Global,
    run: &Run,
    next: &Next<'_>,
    arrival: u64,
) -> Result<Option<Event>, WantMemory>
    ensures { Follows run.now next.now.entry.now
        → IfOk result (λ told. told ≡ stories.event_with run.now.config run.now.run
        run.now.history next.now.entry.now next.now.begun arrival) }
{
    match next.entry {
        Entry::Arrive { .. } => Ok(same(run.arrivals(), arrival, Event::Arrived)),
        Entry::Admit {
            worker,
            arrival: admitted,
            verdict,
        } if *admitted == arrival => {
            let row = row_for(alloc, run, *worker, arrival)?;
            let service = service_with(run, next)?;
            let verdict = verdict.try_clone()?;
            let worker = *worker;
            Ok(Some(Event::Admitted {
                worker,
                row,
                verdict,
                service,
            }))
        }
        Entry::Tried { worker, answer } => {
            Ok(at_work(run, *worker, arrival, Event::Tried(*answer)))
        }
        Entry::Incarnated { worker, answer } => {
            let servant = Servant::brought(answer)?;
            Ok(at_work(run, *worker, arrival, Event::Incarnated { servant }))
        }
        Entry::Run { worker } => Ok(at_work(run, *worker, arrival, Event::Ran)),
        Entry::Done { worker } => Ok(at_work(run, *worker, arrival, Event::Ended)),
        _ => Ok(None),
    }
}

/// The event, where the entry speaks of the call.
fn same(spoken: u64, arrival: u64, event: Event) -> Option<Event>
    ensures { result ≡ (if spoken == arrival then Some event else None) }
{
    if spoken == arrival { Some(event) } else { None }
}

/// The event, where what the worker has begun is for the call.
fn at_work(run: &Run, worker: u32, arrival: u64, event: Event) -> Option<Event>
    ensures { worker < WORKERS → result ≡ stories.at_work run.now.history worker arrival event }
{
    if is_working(run, worker, arrival) {
        Some(event)
    } else {
        None
    }
}

/// The row of the table by which a request or a locate is admitted; none of a command.
pub(crate) fn row_for(
    alloc: Global,
    run: &Run,
    worker: u32,
    arrival: u64,
) -> Result<Option<Row>, WantMemory>
    ensures { IfOk result (λ row. row ≡ stories.row_for run.now.config run.now.run run.now.history arrival worker) }
{
    match facts(alloc, run, arrival)? {
        Some(facts) => Ok(Some(row_of(&facts, worker))),
        None => Ok(None),
    }
}
