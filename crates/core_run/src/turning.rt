//! The entries that workers make.
ghost use Rattle.std.specs.Prelude.{◌≡◌, ℕ, true, false, List, reverse, option_copied, IsOk};
ghost use Rattle.poa_history.specs.Entries.{stage_at};
ghost use Rattle.core_arrivals.specs.Placed.{CallsAgree};
ghost use Rattle.core_outboxes.specs.Comes.{call_at as the_call_at};
ghost use Rattle.core_state.specs.State.{only_ends, StateStays};
ghost use Rattle.poa_base.specs.declared.Entry.{Entry as EntryOf};
ghost use Rattle.core_outboxes.specs.Waits.{call_told};
ghost use Rattle.core_run.specs.Turning as turning;
ghost use Rattle.core_run.specs.Turning.{ComesInTurn, TurnBrings, TurnDecides, TurnFollows};

use crate::brought::Brought;
use crate::freeing::freed_by;
use core_arrivals::{Calls, calls};
use core_outboxes::{Decision, decision_of, ordered_by, wait_by};
use core_state::{Coming, State};
use history_standing::Stage;
use journal_entries::Entries;
use poa_base::{Call, Config, Entry, WantMemory};
use poa_history::workers::arrival_in;
use std::alloc::Global;

/// The call of which an entry speaks: that of the arrival that it admits, or that its worker is at.
pub fn call_at<'a>(
    entries: &'a Entries,
    known: &Calls,
    entry: &Entry,
    stage: Stage,
) -> Option<&'a Call>
    ensures { CallsAgree (reverse entries.now.items) known.now.places.items
        → stage ≡ stage_at (reverse entries.now.items) entry.now
        → option_copied result ≡ the_call_at (reverse entries.now.items) entry.now }
{
    let arrival = match entry {
        Entry::Admit { arrival, .. } => Some(*arrival),
        _ => arrival_in(stage),
    };
    calls::call(entries, known, arrival?)
}

/// The call that an entry admits or runs.
fn call_in<'a>(coming: &Coming<'a>) -> Option<&'a Call>
    ensures { option_copied result
        ≡ turning.call_in coming.now.entry.now (option_copied coming.now.call) }
{
    match coming.entry {
        Entry::Admit { .. } | Entry::Run { .. } => coming.call,
        _ => None,
    }
}

/// The call that an entry admits.
fn call_admitted<'a>(coming: &Coming<'a>) -> Option<&'a Call>
    ensures { (past : List EntryOf)
        → option_copied coming.now.call ≡ the_call_at past coming.now.entry.now
        → option_copied result ≡ call_told past coming.now.entry.now }
{
    match coming.entry {
        Entry::Admit { .. } => coming.call,
        _ => None,
    }
}

/// An entry of a worker, but a Run, changes what stands, and what it decides is told by what stood before it; or nothing
/// changes.
#[tactic(auto, using(crate::proofs::Ends::wants_none))]
fn told(
    alloc: Global,
    config: &Config,
    run: u32,
    coming: &Coming<'_>,
    state: &mut State,
) -> Result<Option<Decision>, WantMemory>
    requires asked { ComesInTurn config.now run coming.now state.old }
    requires kind { turning.is_run coming.now.entry.now ≡ false }
    ensures ok { TurnFollows config.now run coming.now state.old result state.new }
    ensures decides { TurnDecides config.now run coming.now state.old result }
    ensures err { StateStays config.now run state.old result state.new }
    ensures ends { only_ends coming.now.entry.now ≡ true → IsOk result }
{
    let decision = decision_of(
        alloc,
        config,
        coming.entry,
        coming.stage,
        coming.call,
        &state.settings,
        None,
    )?;
    let changing = Coming {
        call: call_in(coming),
        ..*coming
    };
    core_state::advance(alloc, config, run, &changing, state)?;
    Ok(decision)
}

/// An entry of a worker, but a Run, changes what stands, and what it brings is told; or nothing changes. One with which what was
/// begun only ends takes no memory.
#[tactic(auto, using(crate::proofs::Ends::admits_none))]
pub fn bring(
    alloc: Global,
    config: &Config,
    run: u32,
    coming: &Coming<'_>,
    state: &mut State,
) -> Result<Brought, WantMemory>
    requires asked { ComesInTurn config.now run coming.now state.old }
    requires kind { turning.is_run coming.now.entry.now ≡ false }
    ensures ok { TurnFollows config.now run coming.now state.old result state.new }
    ensures brought { TurnBrings config.now run coming.now state.old result }
    ensures err { StateStays config.now run state.old result state.new }
    ensures ends { only_ends coming.now.entry.now ≡ true → IsOk result }
{
    let admits = call_admitted(coming);
    let wait = wait_by(config, &state.standing, coming.entry, admits)?;
    let ordered = ordered_by(config, coming.entry, admits)?;
    let freed = freed_by(&state.standing, coming.stage, coming.entry);
    let decision = told(alloc, config, run, coming, state)?;
    Ok(Brought {
        decision,
        wait,
        ordered,
        freed,
    })
}
