//! The states of the managers.
ghost use Rattle.std.specs.Prelude.{◌≡◌, ℕ, suc, Some, length, option_copied};
ghost use Rattle.poa_base.specs.declared.Command.{Command};
ghost use Rattle.core_settings.specs.States.{state_at};
ghost use Rattle.history_standing.specs.Logs as logs;
ghost use Rattle.core_settings.specs.Told as told;

use crate::managers::Managers;
use crate::settings::Settings;
use history_standing::templates::manager_number;
use poa_base::{Command, Config, ManagerState, Name, Order};

/// The state that an order brings.
fn ordered_state(order: Order) -> ManagerState
    ensures { result ≡ logs.ordered_state order }
{
    match order {
        Order::Activate => ManagerState::Active,
        Order::Hold { .. } => ManagerState::Holding,
        Order::Discard { .. } => ManagerState::Discarding,
        Order::Deactivate { .. } => ManagerState::Inactive,
    }
}

/// What a command orders the manager of this number.
pub fn order_for(config: &Config, manager: u32, command: Option<&Command>) -> Option<Order>
    ensures { result ≡ logs.order_for config.now manager (option_copied command.entry) }
{
    let Some(
        Command::Manager {
            manager: name,
            order,
        },
    ) = command
    else {
        return None;
    };
    match manager_number(config, name) {
        Some(number) => {
            if number == manager as usize {
                Some(*order)
            } else {
                None
            }
        }
        None => None,
    }
}

/// The state of a manager. Takes no memory.
pub fn manager_state(settings: &Settings, manager: u32) -> ManagerState
    ensures { result ≡ told.state_in settings.now manager }
{
    if (manager as usize) < settings.managers.len() {
        settings.managers.state(manager)
    } else {
        ManagerState::Holding
    }
}

/// Gives the manager of this name the state that the order brings. Takes no memory.
pub fn set_state(config: &Config, name: &Name, order: Order, managers: &mut Managers)
    ensures count { length managers.new ≡ length managers.old }
    ensures states { length managers.old ≡ suc (length config.now.managers) → (m : ℕ)
        → state_at managers.new m
        ≡ elim (logs.order_for config.now m (Some (Command.Manager name.now order)))
        [ Some given ↦ logs.ordered_state given | None ↦ state_at managers.old m ] }
{
    if let Some(number) = manager_number(config, name) {
        if number < managers.len() {
            managers.put(number, ordered_state(order));
        }
    }
}
