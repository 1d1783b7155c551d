//! An entry of a worker changes what a history comes to.
ghost use Rattle.std.specs.Prelude.{◌≡◌, ℕ, true, None, if◌then◌else◌, option_copied, IsOk, OnErr};
ghost use Rattle.poa_base.specs.declared.Entry.{Entry};
ghost use Rattle.history_standing.specs.Logs as logs;
ghost use Rattle.core_settings.specs.Told.{may_grow};
ghost use Rattle.poa_base.specs.declared.Attempt.{Attempt};
ghost use Rattle.core_state.specs.Comes.{may_want};
ghost use Rattle.core_state.specs.State.{only_ends, serves, ComesNext, GivesOutcome, StateFollows, StateStays};

use crate::coming::Coming;
use crate::state::State;
use core_settings::apply;
use core_standing::asked_commands::{command_in, is_accepted};
use poa_base::{Call, Command, Config, Entry, Outcome, Verdict, WantMemory};
use std::alloc::Global;

/// The command that an Admit does.
fn done<'a>(call: Option<&'a Call>, verdict: &Verdict) -> Option<&'a Command>
    ensures { option_copied result
        ≡ (if logs.is_accepted verdict.now then logs.command_in
        (option_copied call.entry) else None) }
{
    if is_accepted(verdict) {
        command_in(call)
    } else {
        None
    }
}

/// Whether the command may need a row of its own in what is set.
fn grows(command: Option<&Command>) -> bool
    ensures { result ≡ may_grow (option_copied command.entry) }
{
    match command {
        Some(Command::Preset { .. } | Command::Forward { .. } | Command::Unforward { .. }) => true,
        _ => false,
    }
}

/// An arrival is admitted. A command that sets something changes nothing that stands.
fn admit(
    alloc: Global,
    config: &Config,
    run: u32,
    coming: &Coming<'_>,
    verdict: &Verdict,
    state: &mut State,
) -> Result<(), WantMemory>
    requires { (w : ℕ) × (r : ℕ) × (coming.now.entry.now ≡ Entry.Admit w r verdict.now) }
    ensures ok { StateFollows config.now run coming.now state.old result state.new }
    ensures err { StateStays config.now run state.old result state.new }
{
    let command = done(coming.call, verdict);
    if grows(command) {
        return apply(config, command, &mut state.settings);
    }
    core_standing::advance_kept(
        alloc,
        config,
        run,
        coming.entry,
        coming.stage,
        coming.call,
        &mut state.standing,
    )?;
    apply(config, command, &mut state.settings)
}

/// A trial ends, and may have made the child.
fn tried(
    alloc: Global,
    config: &Config,
    run: u32,
    coming: &Coming<'_>,
    state: &mut State,
) -> Result<(), WantMemory>
    requires { (w : ℕ) × (answer : Attempt) × (coming.now.entry.now ≡ Entry.Tried w answer) }
    ensures ok { StateFollows config.now run coming.now state.old result state.new }
    ensures err { StateStays config.now run state.old result state.new }
{
    core_standing::advance_kept(
        alloc,
        config,
        run,
        coming.entry,
        coming.stage,
        None,
        &mut state.standing,
    )?;
    apply(config, None, &mut state.settings)
}

/// A servant runs, is brought or leaves, or a request ends.
fn served(
    alloc: Global,
    config: &Config,
    run: u32,
    coming: &Coming<'_>,
    state: &mut State,
) -> Result<Option<Outcome>, WantMemory>
    requires next { ComesNext config.now run coming.now state.old }
    requires kind { serves coming.now.entry.now ≡ true }
    ensures ok { StateFollows config.now run coming.now state.old result state.new }
    ensures outcome { GivesOutcome config.now run coming.now state.old result }
    ensures err { StateStays config.now run state.old result state.new }
    ensures ends { OnErr result (may_want coming.now.entry.now ≡ true) }
{
    let outcome = crate::servants_follow::advance(
        alloc,
        config,
        coming,
        &state.standing,
        &mut state.servants,
    )?;
    core_standing::advance_kept(
        alloc,
        config,
        run,
        coming.entry,
        coming.stage,
        None,
        &mut state.standing,
    )?;
    apply(config, None, &mut state.settings)?;
    Ok(outcome)
}

/// An entry of a worker comes, with what the worker had begun, the call that it speaks of and the servant that
/// runs: all of it takes effect, or nothing. At a Run it gives the servant's outcome. Only an Admit, a trial that
/// made the child, a Run and an incarnation of a fresh servant may want memory.
pub fn advance(
    alloc: Global,
    config: &Config,
    run: u32,
    coming: &Coming<'_>,
    state: &mut State,
) -> Result<Option<Outcome>, WantMemory>
    requires { ComesNext config.now run coming.now state.old }
    ensures ok { StateFollows config.now run coming.now state.old result state.new }
    ensures outcome { GivesOutcome config.now run coming.now state.old result }
    ensures err { StateStays config.now run state.old result state.new }
    ensures ends { only_ends coming.now.entry.now ≡ true → IsOk result }
{
    match coming.entry {
        Entry::Admit { verdict, .. } => {
            admit(alloc, config, run, coming, verdict, state)?;
            Ok(None)
        }
        Entry::Tried { .. } => {
            tried(alloc, config, run, coming, state)?;
            Ok(None)
        }
        _ => served(alloc, config, run, coming, state),
    }
}
