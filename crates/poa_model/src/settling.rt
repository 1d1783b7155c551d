//! When a command that waits is answered.
ghost use Rattle.std.specs.Prelude.{◌≡◌, reverse, option_copied, IfOk};
ghost use Rattle.history_standing.specs.Ends as ends;
ghost use Rattle.poa_history.specs.Settling as settling;
ghost use Rattle.history_standing.specs.Changes.{standing};
ghost use Rattle.history_standing.specs.Opening.{number_at as number_of_path};

use core_settings::order_for;
use core_standing::asked_commands::{command_in, done_by, number_at};
use core_standing::ends::is_gone;
use core_standing::orders::{are_ended, is_quiet};
use core_standing::standing_of;
use history_standing::templates::manager_number;
use poa_base::{Command, Config, Entry, Name, Order, WantMemory};
use poa_history::Run;
use poa_history::calls::call_of;

/// What stood when the arrival was admitted.
fn before_admit<'a>(history: &'a [Entry], arrival: u64) -> &'a [Entry]
    ensures { reverse result.now ≡ settling.before_admit (reverse history.now) arrival }
{
    let mut before = &history[..0];
    for (i, entry) in history.iter().enumerate() {
        if let Entry::Admit { arrival: of, .. } = entry {
            if *of == arrival {
                before = &history[..i];
            }
        }
    }
    before
}

/// Whether a later command on the manager was done.
fn is_overtaken(config: &Config, manager: u32, history: &[Entry], arrival: u64) -> bool
    ensures { result ≡ settling.is_overtaken config.now manager (reverse history.now) arrival }
{
    let mut overtaken = false;
    for (i, entry) in history.iter().enumerate() {
        if let Entry::Admit {
            arrival: of,
            verdict,
            ..
        } = entry
        {
            if *of == arrival {
                overtaken = false;
            } else if order_for(config, manager, done_by(&history[..i], *of, verdict)).is_some() {
                overtaken = true;
            }
        }
    }
    overtaken
}

/// Whether what an order to a manager waits for holds.
fn order_holds(
    run: &Run<'_>,
    history: &[Entry],
    arrival: u64,
    manager: u32,
    order: Order,
) -> Result<bool, WantMemory>
    ensures { IfOk result
        (λ holds. holds ≡ settling.order_holds run.now.config.now run.now.number
        (reverse history.now) arrival manager
        order) }
{
    let standing = standing_of(run.alloc, run.config, run.number, history)?;
    match order {
        Order::Activate => Ok(true),
        Order::Hold { .. } | Order::Discard { .. } => Ok(
            is_quiet(run.config, &standing, manager)
                || is_overtaken(run.config, manager, history, arrival),
        ),
        Order::Deactivate { etherealize, .. } => {
            let before = standing_of(
                run.alloc,
                run.config,
                run.number,
                before_admit(history, arrival),
            )?;
            let begun = before.begun()? as usize;
            Ok(
                is_quiet(run.config, &standing, manager)
                    && (!etherealize || are_ended(run.config, &standing, manager, begun)),
            )
        }
    }
}

/// Whether the adapter that a destroy named is gone.
fn destroy_holds(
    run: &Run<'_>,
    history: &[Entry],
    arrival: u64,
    path: &[Name],
) -> Result<bool, WantMemory>
    ensures { IfOk result
        (λ holds. holds ≡ ends.is_gone run.now.config.now
        (standing run.now.config.now run.now.number (reverse history.now))
        (number_of_path (standing run.now.config.now run.now.number
        (settling.before_admit (reverse history.now) arrival)) path.now)) }
{
    let before = standing_of(
        run.alloc,
        run.config,
        run.number,
        before_admit(history, arrival),
    )?;
    let standing = standing_of(run.alloc, run.config, run.number, history)?;
    Ok(is_gone(run.config, &standing, number_at(&before, path)))
}

/// Whether the condition of a command that waits holds after the history.
fn settles_by(
    run: &Run<'_>,
    history: &[Entry],
    arrival: u64,
    command: Option<&Command>,
) -> Result<bool, WantMemory>
    ensures { IfOk result
        (λ holds. holds ≡ settling.settles_by run.now.config.now run.now.number
        (reverse history.now) arrival
        (option_copied command.entry)) }
{
    match command {
        Some(Command::Manager { manager, order }) => match manager_number(run.config, manager) {
            Some(number) => {
                let number = u32::try_from(number).map_err(|_| WantMemory)?;
                order_holds(run, history, arrival, number, *order)
            }
            None => Ok(false),
        },
        Some(Command::Destroy { path, .. }) => {
            destroy_holds(run, history, arrival, path.as_slice())
        }
        _ => Ok(false),
    }
}

/// Whether the condition of the command of an arrival holds after the history.
pub fn settles(run: &Run<'_>, history: &[Entry], arrival: u64) -> Result<bool, WantMemory>
    ensures { IfOk result
        (λ holds. holds ≡ settling.settles run.now.config.now run.now.number
        (reverse history.now) arrival) }
{
    settles_by(run, history, arrival, command_in(call_of(history, arrival)))
}
