//! What a command that is done changes. Either all of it is changed or nothing.
ghost use Rattle.std.specs.Prelude.{◌≡◌, ℕ, ◌≤◌, ◌^◌, length, Some, None, if◌then◌else◌, option_copied, IfOk, IsOk, OnOk, OnErr};
ghost use Rattle.history_standing.specs.Changes as changes;
ghost use Rattle.history_standing.specs.Templates.{manager_number as number_of_manager};
ghost use Rattle.core_standing.specs.Seen.{seen};

use crate::asked_commands::{is_implicit, live_at, number_at};
use crate::beginning::{add_activation, add_node};
use crate::ending::{deactivate, destroy, turn_off};
use crate::ids::{made_id, next};
use crate::standing::Standing;
use history_standing::Phase;
use history_standing::templates::{manager_number, servant_number};
use poa_base::{Command, Config, Name, Order, Path, Sid, WantMemory};
use std::alloc::Global;

/// The phase of an activation that this servant completes. Fails where the servant's number has more than 32
/// bits.
pub fn servant_of(config: &Config, name: &Name) -> Result<Phase, WantMemory>
    ensures value { IfOk result (λ phase. phase ≡ changes.servant_of config.now name.now) }
    ensures ok { length config.now.servants ≤ 2 ^ 32 → IsOk result }
{
    match servant_number(config, name)? {
        Some(number) => Ok(Phase::Complete(Sid::Named(number))),
        None => Ok(Phase::Void),
    }
}

/// The servant is active under a new system-made id.
fn add_made_activation(
    alloc: Global,
    config: &Config,
    run: u32,
    path: &Path,
    servant: &Name,
    standing: &mut Standing,
) -> Result<(), WantMemory>
    ensures ok { OnOk result
        (seen standing.new ≡ changes.with_made_activation config.now run path.now servant.now
        (seen standing.old)) }
    ensures err { OnErr result (seen standing.new ≡ seen standing.old) }
{
    let adapter = number_at(standing, path.as_slice());
    let ordinal = next(standing.made)?;
    let oid = made_id(alloc, run, ordinal)?;
    let phase = servant_of(config, servant)?;
    add_activation(standing, adapter, path, &oid, phase)?;
    standing.made = ordinal;
    Ok(())
}

/// Whether a servant's reference is that of a new activation.
fn is_made_for(
    config: &Config,
    standing: &Standing,
    path: &Path,
    servant: &Name,
) -> Result<bool, WantMemory>
    ensures { IfOk result
        (λ made. (run : ℕ) → changes.with_reference config.now run path.now servant.now
        (seen standing.now)
        ≡ (if made then changes.with_made_activation config.now run path.now servant.now
        (seen standing.now) else seen standing.now)) }
{
    let Some(node) = live_at(standing, path.as_slice()) else {
        return Ok(false);
    };
    match servant_number(config, servant)? {
        Some(number) => Ok(is_implicit(config, standing, node, number)),
        None => Ok(false),
    }
}

fn add_reference(
    alloc: Global,
    config: &Config,
    run: u32,
    path: &Path,
    servant: &Name,
    standing: &mut Standing,
) -> Result<(), WantMemory>
    ensures ok { OnOk result
        (seen standing.new ≡ changes.with_reference config.now run path.now servant.now
        (seen standing.old)) }
    ensures err { OnErr result (seen standing.new ≡ seen standing.old) }
{
    if is_made_for(config, standing, path, servant)? {
        add_made_activation(alloc, config, run, path, servant, standing)?;
    }
    Ok(())
}

/// The manager of this name is turned off.
fn off(config: &Config, manager: &Name, standing: &mut Standing) -> Result<(), WantMemory>
    ensures ok { OnOk result (seen standing.new ≡ elim (number_of_manager config.now manager.now) [
      | Some m ↦ changes.with_manager_off config.now m (seen standing.old)
      | None ↦ seen
          standing.old
    ]) }
    ensures err { OnErr result (seen standing.new ≡ seen standing.old) }
{
    match manager_number(config, manager) {
        Some(number) => turn_off(config, standing, number),
        None => Ok(()),
    }
}

/// A command that is done takes effect.
pub fn command(
    alloc: Global,
    config: &Config,
    run: u32,
    done: Option<&Command>,
    standing: &mut Standing,
) -> Result<(), WantMemory>
    ensures ok { OnOk result
        (seen standing.new ≡ changes.with_command config.now run (option_copied done.entry)
        (seen standing.old)) }
    ensures err { OnErr result (seen standing.new ≡ seen standing.old) }
{
    let Some(done) = done else {
        return Ok(());
    };
    match done {
        Command::Manager {
            manager,
            order: Order::Deactivate {
                etherealize: true,
                ..
            },
        } => off(config, manager, standing)?,
        Command::Create { path } => add_node(standing, path)?,
        Command::Destroy {
            path,
            etherealize,
            ..
        } => destroy(standing, path.as_slice(), *etherealize)?,
        Command::Activate { path, servant } => {
            add_made_activation(alloc, config, run, path, servant, standing)?
        }
        Command::ActivateId { path, oid, servant } => {
            let adapter = number_at(standing, path.as_slice());
            let phase = servant_of(config, servant)?;
            add_activation(standing, adapter, path, oid, phase)?;
        }
        Command::Deactivate { path, oid } => {
            let adapter = number_at(standing, path.as_slice());
            deactivate(standing, adapter, oid)?;
        }
        Command::Reference { path, servant } => {
            add_reference(alloc, config, run, path, servant, standing)?
        }
        Command::Shutdown => destroy(standing, &[], true)?,
        _ => {}
    }
    Ok(())
}
