//! The reply that an arrival's deciding entry fixes.
ghost use Rattle.std.specs.Prelude.{◌≡◌, ◌∷◌, reverse, option_copied, IfOk};
ghost use Rattle.poa_base.specs.Store.{stored as stored_at_opening};
ghost use Rattle.poa_history.specs.Replies as replies;
ghost use Rattle.history_standing.specs.Stages as begun;
ghost use Rattle.poa_history.specs.States as states;

use crate::acting::act;
use crate::deciding::{decided, is_at_work};
use crate::entries::kept_of;
use crate::kept::state_in;
use crate::servants::{call_run, servant_run};
use crate::set::settings_of;
use core_outboxes::{good, reply_admitted, reply_incarnated, reply_tried};
use poa_base::{Attempt, Call, Config, Entry, Reply, Sid, Store, WantMemory};
use poa_history::Run;
use poa_history::calls::call_of;
use poa_history::workers::stage;
use std::alloc::Global;

/// The reply that the adapter activator's answer fixes, by what was set until then.
fn reply_after_trial(
    alloc: Global,
    config: &Config,
    past: &[Entry],
    call: Option<&Call>,
    answer: &Attempt,
) -> Result<Reply, WantMemory>
    ensures { IfOk result
        (λ reply. reply ≡ replies.reply_tried config.now (reverse past.now)
        (option_copied call.entry) answer.now) }
{
    let settings = settings_of(alloc, config, past)?;
    reply_tried(alloc, config, &settings, call, answer)
}

/// The outcome of the servant's act on the call, in its state after the history.
fn reply_run(
    run: &Run<'_>,
    store: &Store,
    past: &[Entry],
    servant: Option<Sid>,
    call: Option<&Call>,
) -> Result<Option<Reply>, WantMemory>
    ensures { IfOk result
        (λ reply. reply ≡ replies.reply_run run.now.config.now run.now.number
        (stored_at_opening store.now)
        (reverse past.now) servant
        (option_copied call.entry)) }
{
    let Some(servant) = servant else {
        return Ok(None);
    };
    let kept = kept_of(run, store, past)?;
    let state = state_in(run.config, &kept.servants, servant)?;
    let done = act(run.alloc, state, call)?;
    Ok(Some(Reply::Outcome(done.outcome)))
}

/// The reply that a worker's Run fixes.
fn reply_ran(
    run: &Run<'_>,
    store: &Store,
    past: &[Entry],
    worker: u32,
) -> Result<Option<Reply>, WantMemory>
    ensures { IfOk result
        (λ reply. reply ≡ replies.reply_run run.now.config.now run.now.number
        (stored_at_opening store.now)
        (reverse past.now)
        (states.servant_run run.now.config.now run.now.number (reverse past.now)
        (begun.stage (reverse past.now) worker))
        (states.call_run (reverse past.now) (begun.stage (reverse past.now) worker))) }
{
    let stage = stage(past, worker);
    let servant = servant_run(run, past, stage)?;
    reply_run(run, store, past, servant, call_run(past, stage))
}

/// The reply that an entry fixes for the arrival that it decides.
fn reply_by(
    run: &Run<'_>,
    store: &Store,
    past: &[Entry],
    entry: &Entry,
    arrival: u64,
) -> Result<Option<Reply>, WantMemory>
    ensures { IfOk result
        (λ reply. reply ≡ replies.reply_by run.now.config.now run.now.number
        (stored_at_opening store.now)
        (reverse past.now) entry.now arrival) }
{
    let call = call_of(past, arrival);
    match entry {
        Entry::Admit {
            arrival: of,
            verdict,
            ..
        } if *of == arrival => reply_admitted(run.alloc, call, verdict),
        Entry::Tried { worker, answer } if is_at_work(past, *worker, arrival) => {
            Ok(Some(reply_after_trial(run.alloc, run.config, past, call, answer)?))
        }
        Entry::Incarnated { worker, answer } if is_at_work(past, *worker, arrival) => {
            reply_incarnated(run.alloc, call, answer)
        }
        Entry::Run { worker } if is_at_work(past, *worker, arrival) => {
            reply_ran(run, store, past, *worker)
        }
        _ => Ok(Some(good(call))),
    }
}

/// The reply of an arrival after one entry more, by the one before it.
fn reply_after(
    run: &Run<'_>,
    store: &Store,
    past: &[Entry],
    whole: &[Entry],
    entry: &Entry,
    arrival: u64,
    before: Option<Reply>,
) -> Result<Option<Reply>, WantMemory>
    requires whole { reverse whole.now ≡ entry.now ∷ reverse past.now }
    requires before { before
        ≡ replies.reply_of run.now.config.now run.now.number (stored_at_opening store.now)
        (reverse past.now) arrival }
    ensures { IfOk result
        (λ reply. reply ≡ replies.reply_of run.now.config.now run.now.number
        (stored_at_opening store.now)
        (entry.now ∷ reverse past.now) arrival) }
{
    if decided(run, past, arrival)? {
        return Ok(before);
    }
    if decided(run, whole, arrival)? {
        reply_by(run, store, past, entry, arrival)
    } else {
        Ok(None)
    }
}

/// The reply to an arrival after a history, which stands oldest first, in a run of this number that opened
/// with this store; none where it isn't decided. `WantMemory`: no memory was left to compute it.
pub fn slow_reply(
    run: &Run<'_>,
    store: &Store,
    history: &[Entry],
    arrival: u64,
) -> Result<Option<Reply>, WantMemory>
    ensures { IfOk result
        (λ reply. reply ≡ replies.reply_of run.now.config.now run.now.number
        (stored_at_opening store.now)
        (reverse history.now) arrival) }
{
    let mut reply = None;
    for (i, entry) in history.iter().enumerate() {
        let past = &history[..i];
        let whole = &history[..i + 1];
        reply = reply_after(run, store, past, whole, entry, arrival, reply)?;
    }
    Ok(reply)
}
