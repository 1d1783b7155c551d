//! What stands about a call in a run: the facts that the table of verdicts asks, and what the call waits for.
ghost use Rattle.std.specs.Prelude.{◌≡◌, if◌then◌else◌, IfOk, Some, None, option_copied};
ghost use Rattle.history_standing.specs.Arrivals as called;
ghost use Rattle.history_standing.specs.Arrivals.{is_message as is_message_of};
ghost use Rattle.history_standing.specs.Logs as logs;
ghost use Rattle.history_standing.specs.Situations as situations;
ghost use Rattle.journal_explain.specs.Objects as objects;
ghost use Rattle.journal_explain.specs.Stories as stories;

use crate::doing::Doing;
use crate::wait::Wait;
use core_arrivals::calls::call;
use core_arrivals::queue::{is_crowded, waits};
use core_run::Run;
use core_settings::manager_state;
use core_standing::asked_commands::command_in;
use core_turns::{Look, facts_of, look_at};
use poa_base::{Call, Command, ManagerState, TryClone, WantMemory};
use poa_choose::Facts;
use poa_history::calls::is_message;
use std::alloc::Global;

/// The facts that stand about a request or a locate; none of a line, and of what hasn't arrived.
pub(crate) fn facts(alloc: Global, run: &Run, arrival: u64) -> Result<Option<Facts>, WantMemory>
    ensures { IfOk result (λ facts. facts
        ≡ (if is_message_of (called.call_of run.now.history arrival) then Some
        (situations.facts_of run.now.config run.now.run run.now.history arrival) else None)) }
{
    run.keeps_laws();
    let tables = run.tables();
    let call = call(run.entries(), &tables.calls, arrival);
    if !is_message(call) {
        return Ok(None);
    }
    let Some(call) = call else {
        return Ok(None);
    };
    let state = run.state();
    let crowded = is_crowded(&tables.queue, arrival);
    let facts = facts_of(
        alloc,
        run.config(),
        run.run(),
        &state.standing,
        &state.settings,
        crowded,
        call,
    )?;
    Ok(Some(facts))
}

/// What a request or a locate waits for, as any worker but the first sees it; none where it doesn't wait.
pub(crate) fn wait_of(alloc: Global, run: &Run, arrival: u64) -> Result<Option<Wait>, WantMemory>
    ensures { IfOk result (λ wait. wait ≡ stories.wait_of run.now.config run.now.run run.now.history arrival) }
{
    run.keeps_laws();
    let tables = run.tables();
    if !waits(&tables.queue, arrival) {
        return Ok(None);
    }
    let Some(call) = call(run.entries(), &tables.calls, arrival) else {
        return Ok(None);
    };
    let state = run.state();
    let crowded = is_crowded(&tables.queue, arrival);
    let look = look_at(
        alloc,
        run.config(),
        run.run(),
        &state.standing,
        &state.settings,
        crowded,
        call,
        1,
    )?;
    Ok(Some(wait_by(&look)))
}

/// What a look finds.
fn wait_by(look: &Look) -> Wait
    ensures { result ≡ stories.wait_by look.now }
{
    match look {
        Look::Go(_) => Wait::Worker,
        Look::Held(hold) => Wait::Held(*hold),
    }
}

/// The state of a manager.
pub(crate) fn state_of(run: &Run, manager: u32) -> ManagerState
    ensures { result ≡ logs.manager_state run.now.config run.now.history manager }
{
    let state = run.state();
    let found = manager_state(&state.settings, manager);
    found
}

/// The call of an arrival.
pub(crate) fn call_of(run: &Run, arrival: u64) -> Option<&Call>
    ensures { option_copied result ≡ called.call_of run.now.history arrival }
{
    let found = call(run.entries(), &run.tables().calls, arrival);
    found
}

/// The administrator's command that an entry admits, which does this.
pub(crate) fn command_admitted(run: &Run, doing: Doing) -> Result<Option<Command>, WantMemory>
    ensures { IfOk result (λ command. command ≡ objects.command_by run.now.history doing) }
{
    let Doing::Admits(arrival) = doing else {
        return Ok(None);
    };
    match command_in(call_of(run, arrival)) {
        Some(command) => Ok(Some(command.try_clone()?)),
        None => Ok(None),
    }
}
