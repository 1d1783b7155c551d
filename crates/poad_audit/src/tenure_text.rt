//! What is printed of that by which a call is held or admitted, where it can be set.
ghost use Rattle.std.specs.Prelude.{◌≡◌, IfOk, Some, option_copied};
ghost use Rattle.poad_audit.specs.Tenures as printed;

use crate::verdict_text::fixed;
use admin_line::command_text;
use journal_explain::{Basis, Since, Tenure};
use poa_base::{Bytes, Command, ManagerState, WantMemory};
use std::alloc::Global;

/// Behind what holds a call: since when.
pub(crate) fn held_since(alloc: Global, tenure: Option<&Tenure>) -> Result<Bytes, WantMemory>
    ensures { IfOk result (λ text. text ≡ printed.held_since (option_copied tenure.entry)) }
{
    match tenure {
        Some(tenure) => since_text(alloc, tenure.since, tenure.command.as_ref()),
        None => Ok(Bytes::new(alloc)),
    }
}

/// Behind the words of the row that admits a call: by what it applies, and since when that is so.
pub(crate) fn ruler_text(alloc: Global, tenure: Option<&Tenure>) -> Result<Bytes, WantMemory>
    ensures { IfOk result (λ text. text ≡ printed.ruler_text (option_copied tenure.entry)) }
{
    match tenure {
        Some(tenure) => tenure_text(alloc, tenure),
        None => Ok(Bytes::new(alloc)),
    }
}

fn tenure_text(alloc: Global, tenure: &Tenure) -> Result<Bytes, WantMemory>
    ensures { IfOk result (λ text. text ≡ printed.ruler_text (Some tenure.now)) }
{
    let basis = basis_text(alloc, tenure.basis)?;
    let since = since_text(alloc, tenure.since, tenure.command.as_ref())?;
    let mut out = Vec::new(alloc);
    out.extend_from_slice(basis.as_slice())?;
    out.extend_from_slice(since.as_slice())?;
    Ok(Bytes::from_vec(out))
}

/// A manager and its state; of a default servant and of an endpoint that it is set.
fn basis_text(alloc: Global, basis: Basis) -> Result<Bytes, WantMemory>
    ensures { IfOk result (λ text. text ≡ printed.basis_text basis) }
{
    match basis {
        Basis::Manager { manager, state } => state_line(alloc, manager, state),
        Basis::DefaultServant | Basis::Endpoint => fixed(alloc, ": set"),
    }
}

fn state_line(alloc: Global, manager: u32, state: ManagerState) -> Result<Bytes, WantMemory>
    ensures { IfOk result (λ text. text ≡ printed.state_line manager state) }
{
    let state = state_text(state);
    let text = format!(in alloc; ": manager {manager} is {state}")?;
    Ok(Bytes::from_vec(text.into_bytes()))
}

/// The state as the standard names it.
fn state_text(state: ManagerState) -> &'static str
    ensures { result.now ≡ printed.state_text state }
{
    match state {
        ManagerState::Holding => "HOLDING",
        ManagerState::Active => "ACTIVE",
        ManagerState::Discarding => "DISCARDING",
        ManagerState::Inactive => "INACTIVE",
    }
}

/// Since when that is so, and by which call.
fn since_text(
    alloc: Global,
    since: Option<Since>,
    command: Option<&Command>,
) -> Result<Bytes, WantMemory>
    ensures { IfOk result (λ text. text ≡ printed.since_text since (option_copied command.entry)) }
{
    match since {
        Some(since) => entry_text(alloc, since, command),
        None => fixed(alloc, " since the run began"),
    }
}

fn entry_text(alloc: Global, since: Since, command: Option<&Command>) -> Result<Bytes, WantMemory>
    ensures { IfOk result (λ text. text
        ≡ printed.since_text (Some since) (option_copied command.entry)) }
{
    let entry = since.entry;
    let turner = turner_text(alloc, since.arrival, command)?;
    let head = format!(in alloc; " since entry {entry}")?;
    let mut out = head.into_bytes();
    out.extend_from_slice(turner.as_slice())?;
    Ok(Bytes::from_vec(out))
}

/// The call, with its command.
fn turner_text(alloc: Global, arrival: u64, command: Option<&Command>) -> Result<Bytes, WantMemory>
    ensures { IfOk result (λ text. text ≡ printed.turner_text arrival (option_copied command.entry)) }
{
    match command {
        Some(command) => commanded(alloc, arrival, command),
        None => {
            let text = format!(in alloc; " (call {arrival})")?;
            Ok(Bytes::from_vec(text.into_bytes()))
        }
    }
}

fn commanded(alloc: Global, arrival: u64, command: &Command) -> Result<Bytes, WantMemory>
    ensures { IfOk result (λ text. text ≡ printed.turner_text arrival (Some command.now)) }
{
    let words = command_text(alloc, command)?;
    let head = format!(in alloc; " (call {arrival}, ")?;
    let mut out = head.into_bytes();
    out.extend_from_slice(words.as_slice())?;
    out.extend_from_slice(b")")?;
    Ok(Bytes::from_vec(out))
}
