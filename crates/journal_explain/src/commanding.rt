//! What a command sets.
ghost use Rattle.std.specs.Prelude.{◌≡◌, IfOk, Some, None, if◌then◌else◌, option_copied};
ghost use Rattle.history_standing.specs.Arrivals as called;
ghost use Rattle.history_standing.specs.Logs as logs;
ghost use Rattle.journal_explain.specs.Origins as origins;

use crate::facing::{call_of, state_of};
use crate::setting::Setting;
use core_run::Run;
use core_standing::asked_commands::{command_in, is_accepted};
use history_standing::templates::manager_number;
use poa_base::{Command, ManagerState, Name, Order, Verdict, WantMemory};

/// The command that is done next in a run, where the call of this arrival is admitted with this verdict.
pub(crate) fn command_done<'a>(run: &'a Run, arrival: u64, verdict: &Verdict) -> Option<&'a Command>
    ensures { option_copied result
        ≡ (if logs.is_accepted verdict.now then logs.command_in
        (called.call_of run.now.history arrival) else None) }
{
    if is_accepted(verdict) {
        command_in(call_of(run, arrival))
    } else {
        None
    }
}

/// What a command sets, where it is done next. Fails where the number of its manager has more than 32 bits.
pub(crate) fn set_by(run: &Run, command: Option<&Command>) -> Result<Option<Setting>, WantMemory>
    ensures { IfOk result (λ setting. setting
        ≡ origins.set_by run.now.config run.now.history (option_copied command.entry)) }
{
    match command {
        Some(Command::Manager { manager, order }) => turned_by(run, manager, *order),
        Some(Command::Preset { path, .. }) => Ok(Some(Setting::DefaultServant(path.clone()?))),
        Some(Command::Forward { path, .. }) => Ok(Some(Setting::Endpoint(path.clone()?))),
        Some(Command::Unforward { path }) => Ok(Some(Setting::Endpoint(path.clone()?))),
        _ => Ok(None),
    }
}

/// So does an order to the manager of this name.
fn turned_by(run: &Run, name: &Name, order: Order) -> Result<Option<Setting>, WantMemory>
    ensures { IfOk result (λ setting. setting ≡ origins.set_by run.now.config run.now.history
        (Some (Command.Manager name.now order))) }
{
    let Some(number) = manager_number(run.config(), name) else {
        return Ok(None);
    };
    let manager = u32::try_from(number).map_err(|_| WantMemory)?;
    if turns(state_of(run, manager), order) {
        Ok(Some(Setting::Manager(manager)))
    } else {
        Ok(None)
    }
}

/// Whether an order brings a manager from this state to another.
fn turns(state: ManagerState, order: Order) -> bool
    ensures { result ≡ origins.turns state order }
{
    match (order, state) {
        (Order::Activate, ManagerState::Active)
        | (Order::Hold { .. }, ManagerState::Holding)
        | (Order::Discard { .. }, ManagerState::Discarding)
        | (Order::Deactivate { .. }, ManagerState::Inactive) => false,
        _ => true,
    }
}
