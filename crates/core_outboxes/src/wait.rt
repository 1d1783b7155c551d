//! What a command that waits is waiting for.
ghost use Rattle.std.specs.Prelude.{◌≡◌, ◌==◌, ◌&&◌, ℕ, List, Some, None, if◌then◌else◌, false, option_copied, IfOk, IsOk};
ghost use Rattle.poa_base.specs.declared.Entry.{Entry as EntryOf};
ghost use Rattle.history_standing.specs.Logs as logs;
ghost use Rattle.poa_history.specs.Replies as replies;
ghost use Rattle.core_outboxes.specs.Desk.{WaitIs};
ghost use Rattle.core_outboxes.specs.Waits.{call_told};
ghost use Rattle.core_outboxes.specs.Waits as waits;
ghost use Rattle.core_standing.specs.Answers.{AnswersAs};
ghost use Rattle.core_standing.specs.Seen.{seen};

use core_standing::Standing;
use core_standing::asked_commands::{command_in, is_accepted, number_at};
use core_standing::ends::is_gone;
use core_standing::orders::{are_ended, is_quiet};
use history_standing::templates::manager_number;
use poa_base::{Call, Command, Config, Entry, Name, Order, Verdict, WantMemory};

/// What a command waits for, from its Admit on.
#[derive(Clone, Copy, Drop)]
pub enum Wait {
    /// Nothing: it has come at once.
    Nothing,
    /// Nothing is in flight in the adapters of this manager, or a later command orders it.
    Quiet {
        manager: u32,
    },
    /// Nothing is in flight in them; where it etherealizes, those of their first so many activations that
    /// a servant activator is told of are over.
    Off {
        manager: u32,
        etherealize: bool,
        begun: usize,
    },
    /// The adapter of this number is gone.
    Gone {
        adapter: u32,
    },
}

/// A command that an arrival gave a manager.
#[derive(Clone, Copy, Drop)]
pub struct Ordered {
    pub arrival: u64,
    pub manager: u32,
}

fn wait_for(manager: u32, standing: &Standing, order: Order) -> Result<Wait, WantMemory>
    ensures { IfOk result (λ wait. wait ≡ waits.wait_for manager (seen standing.now) order) }
{
    match order {
        Order::Activate => Ok(Wait::Nothing),
        Order::Hold { .. } | Order::Discard { .. } => Ok(Wait::Quiet { manager }),
        Order::Deactivate { etherealize, .. } => Ok(Wait::Off {
            manager,
            etherealize,
            begun: standing.begun()? as usize,
        }),
    }
}

/// What an order to a manager waits for.
fn wait_for_order(
    config: &Config,
    standing: &Standing,
    manager: &Name,
    order: Order,
) -> Result<Option<Wait>, WantMemory>
    ensures { IfOk result
        (λ wait. wait ≡ waits.wait_of config.now (seen standing.now)
        (Some (Command.Manager manager.now order))) }
{
    match manager_number(config, manager) {
        Some(number) => {
            let number = u32::try_from(number).map_err(|_| WantMemory)?;
            Ok(Some(wait_for(number, standing, order)?))
        }
        None => Ok(None),
    }
}

/// What a command waits for, admitted where this stands.
pub fn wait_of(
    config: &Config,
    standing: &Standing,
    command: Option<&Command>,
) -> Result<Option<Wait>, WantMemory>
    ensures { IfOk result
        (λ wait. wait ≡ waits.wait_of config.now (seen standing.now)
        (option_copied command.entry)) }
{
    match command {
        Some(Command::Manager { manager, order }) => {
            wait_for_order(config, standing, manager, *order)
        }
        Some(Command::Destroy { path, .. }) => Ok(Some(Wait::Gone {
            adapter: number_at(standing, path.as_slice()),
        })),
        _ => Ok(None),
    }
}

/// Whether a command of another arrival ordered the manager.
fn is_overtaking(ordered: Option<Ordered>, arrival: u64, manager: u32) -> bool
    ensures { result ≡ waits.is_overtaking ordered arrival manager }
{
    match ordered {
        Some(by) => by.arrival != arrival && by.manager == manager,
        None => false,
    }
}

/// Whether what an arrival waits for has come, given what an entry ordered. Takes no memory.
pub fn has_come(
    config: &Config,
    standing: &Standing,
    ordered: Option<Ordered>,
    arrival: u64,
    wait: Wait,
) -> bool
    ensures { result ≡ waits.has_come config.now (seen standing.now) ordered arrival wait }
{
    match wait {
        Wait::Nothing => true,
        Wait::Quiet { manager } => {
            is_quiet(config, standing, manager) || is_overtaking(ordered, arrival, manager)
        }
        Wait::Off {
            manager,
            etherealize,
            begun,
        } => {
            is_quiet(config, standing, manager)
                && (!etherealize || are_ended(config, standing, manager, begun))
        }
        Wait::Gone { adapter } => is_gone(config, standing, adapter),
    }
}

/// The command that an Admit of this verdict does.
fn command_done<'a>(verdict: &Verdict, call: Option<&'a Call>) -> Option<&'a Command>
    ensures { option_copied result
        ≡ (if logs.is_accepted verdict.now then logs.command_in
        (option_copied call.entry) else None) }
{
    if is_accepted(verdict) {
        command_in(call)
    } else {
        None
    }
}

/// What an arrival waits for once it is admitted with this verdict, where it is to wait.
fn wait_begun(
    config: &Config,
    standing: &Standing,
    verdict: &Verdict,
    call: Option<&Call>,
) -> Result<Option<Wait>, WantMemory>
    ensures { IfOk result
        (λ wait. wait ≡
        (if replies.is_waiting (Some verdict.now) then waits.wait_of config.now (seen standing.now)
        (logs.command_in (option_copied call.entry)) else None)) }
{
    match verdict {
        Verdict::Wait => wait_of(config, standing, command_in(call)),
        _ => Ok(None),
    }
}

/// What the arrival of an entry waits for from now on, where the entry admits it; `call` is its call, and
/// `standing` what stands before. Fails for want of memory, and only at an Admit.
pub fn wait_by(
    config: &Config,
    standing: &Standing,
    entry: &Entry,
    call: Option<&Call>,
) -> Result<Option<Wait>, WantMemory>
    ensures waits { (run : ℕ) (past : List EntryOf)
        → AnswersAs config.now run past (seen standing.now)
        → option_copied call.entry ≡ call_told past entry.now
        → IfOk result (λ wait. WaitIs config.now run past entry.now wait) }
    ensures ends { waits.admits entry.now ≡ false → IsOk result }
{
    match entry {
        Entry::Admit { verdict, .. } => wait_begun(config, standing, verdict, call),
        _ => Ok(None),
    }
}

/// The manager that a command orders.
fn manager_ordered(config: &Config, command: Option<&Command>) -> Result<Option<u32>, WantMemory>
    ensures { IfOk result
        (λ manager. manager ≡ waits.manager_ordered config.now (option_copied command.entry)) }
{
    match command {
        Some(Command::Manager { manager, .. }) => match manager_number(config, manager) {
            Some(number) => Ok(Some(u32::try_from(number).map_err(|_| WantMemory)?)),
            None => Ok(None),
        },
        _ => Ok(None),
    }
}

/// What an entry orders, where it admits a command to a manager; `call` is the call that it admits. Fails for want
/// of memory, and only at an Admit.
pub fn ordered_by(
    config: &Config,
    entry: &Entry,
    call: Option<&Call>,
) -> Result<Option<Ordered>, WantMemory>
    ensures orders { (past : List EntryOf) → option_copied call.entry ≡ call_told past entry.now
        → IfOk result (λ ordered. ordered ≡ waits.ordered_by config.now past entry.now) }
    ensures ends { waits.admits entry.now ≡ false → IsOk result }
{
    match entry {
        Entry::Admit {
            arrival,
            verdict,
            ..
        } => {
            let arrival = *arrival;
            let manager = manager_ordered(config, command_done(verdict, call))?;
            Ok(manager.map(|manager| Ordered { arrival, manager }))
        }
        _ => Ok(None),
    }
}
