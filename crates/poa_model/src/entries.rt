//! The states that each entry leaves.
ghost use Rattle.std.specs.Prelude.{◌≡◌, reverse, option_copied, IfOk, OnOk};
ghost use Rattle.poa_base.specs.Store.{stored as stored_at_opening};
ghost use Rattle.history_standing.specs.Changes.{standing as standing_after};
ghost use Rattle.poa_history.specs.Turns as turns;
ghost use Rattle.poa_model.specs.Kept as keeps;
ghost use Rattle.core_standing.specs.Seen.{seen};

use crate::acting::act;
use crate::kept::{Kept, state_in, stored_in};
use crate::servant_state::ServantState;
use crate::servants::{call_run, servant_run};
use crate::stored_state::StoredState;
use core_standing::searches::activation_numbered;
use core_standing::{Standing, standing_of};
use core_state::{kind_brought, restored};
use history_standing::{Activation, Phase, Stage};
use poa_base::{Call, Config, Entry, Incarnation, Sid, State, Store, WantMemory};
use poa_history::Run;
use poa_history::workers::stage;
use std::alloc::Global;

/// The servant acts on the call.
fn run_servant(
    alloc: Global,
    config: &Config,
    servant: Option<Sid>,
    call: Option<&Call>,
    kept: &mut Kept,
) -> Result<(), WantMemory>
    ensures { OnOk result
        (keeps.seen kept.new
        ≡ keeps.with_run config.now servant (option_copied call.entry) (keeps.seen kept.old)) }
{
    let Some(servant) = servant else {
        return Ok(());
    };
    let state = state_in(config, &kept.servants, servant)?;
    let done = act(alloc, state, call)?;
    let left = ServantState {
        servant,
        state: done.state,
    };
    kept.servants.push(left)?;
    Ok(())
}

/// The state in which a fresh servant opens.
fn opens_with(
    alloc: Global,
    config: &Config,
    store: &Store,
    places: &[StoredState],
    activation: Option<&Activation>,
) -> Result<State, WantMemory>
    ensures { IfOk result
        (λ state. state ≡ keeps.opens_with config.now (stored_at_opening store.now)
        (reverse places.now) (option_copied activation.entry)) }
{
    match activation {
        Some(activation) => {
            let stored = stored_in(store, places, &activation.path, &activation.oid);
            restored(alloc, kind_brought(config, activation), stored)
        }
        None => Ok(State::Fault),
    }
}

/// A fresh servant opens with what is stored for its id.
fn open_fresh(
    alloc: Global,
    config: &Config,
    store: &Store,
    number: u32,
    activation: Option<&Activation>,
    kept: &mut Kept,
) -> Result<(), WantMemory>
    ensures { OnOk result
        (keeps.seen kept.new
        ≡ keeps.with_fresh config.now (stored_at_opening store.now) number
        (option_copied activation.entry)
        (keeps.seen kept.old)) }
{
    let left = ServantState {
        servant: Sid::Fresh(number),
        state: opens_with(alloc, config, store, &kept.places, activation)?,
    };
    kept.servants.push(left)?;
    Ok(())
}

/// The activation that a worker takes down.
fn removed(standing: &Standing, stage: Stage) -> Option<&Activation>
    ensures { option_copied result ≡ keeps.removed (seen standing.now) stage }
{
    match stage {
        Stage::Removing(number) => activation_numbered(standing, number),
        _ => None,
    }
}

/// The fresh servant of an activation.
fn fresh_of(activation: &Activation) -> Option<Sid>
    ensures { result ≡ keeps.fresh_of activation.now }
{
    match activation.phase {
        Phase::Complete(Sid::Fresh(number)) => Some(Sid::Fresh(number)),
        Phase::Complete(Sid::Named(_)) | Phase::Begun | Phase::Void => None,
    }
}

/// A fresh servant that is removed leaves its state for its id.
fn leave_fresh(
    config: &Config,
    activation: Option<&Activation>,
    kept: &mut Kept,
) -> Result<(), WantMemory>
    ensures { OnOk result
        (keeps.seen kept.new
        ≡ keeps.with_removed config.now (option_copied activation.entry) (keeps.seen kept.old)) }
{
    let Some(activation) = activation else {
        return Ok(());
    };
    let Some(servant) = fresh_of(activation) else {
        return Ok(());
    };
    let left = StoredState {
        path: activation.path.clone()?,
        oid: activation.oid.clone()?,
        state: state_in(config, &kept.servants, servant)?,
    };
    kept.places.push(left)?;
    Ok(())
}

/// What an entry leaves, after the entries before it.
fn keep(
    run: &Run<'_>,
    store: &Store,
    past: &[Entry],
    entry: &Entry,
    kept: &mut Kept,
) -> Result<(), WantMemory>
    ensures { OnOk result
        (keeps.seen kept.new
        ≡ keeps.with_entry run.now.config.now run.now.number (stored_at_opening store.now)
        (reverse past.now) entry.now
        (keeps.seen kept.old)) }
{
    match entry {
        Entry::Run { worker } => {
            let stage = stage(past, *worker);
            let servant = servant_run(run, past, stage)?;
            run_servant(run.alloc, run.config, servant, call_run(past, stage), kept)
        }
        Entry::Incarnated {
            answer: Incarnation::Fresh(number),
            ..
        } => {
            let standing = standing_of(run.alloc, run.config, run.number, past)?;
            let activation = activation_numbered(&standing, *number);
            open_fresh(run.alloc, run.config, store, *number, activation, kept)
        }
        Entry::Etherealized { worker, .. } => {
            let standing = standing_of(run.alloc, run.config, run.number, past)?;
            leave_fresh(run.config, removed(&standing, stage(past, *worker)), kept)
        }
        _ => Ok(()),
    }
}

/// What the entries of a history left.
pub fn kept_of(run: &Run<'_>, store: &Store, history: &[Entry]) -> Result<Kept, WantMemory>
    ensures { IfOk result
        (λ kept. keeps.seen kept
        ≡ keeps.kept run.now.config.now run.now.number (stored_at_opening store.now)
        (reverse history.now)) }
{
    let mut kept = Kept {
        servants: Vec::new(run.alloc),
        places: Vec::new(run.alloc),
    };
    for (i, entry) in history.iter().enumerate() {
        keep(run, store, &history[..i], entry, &mut kept)?;
    }
    Ok(kept)
}
