//! A fresh servant is brought.
ghost use Rattle.std.specs.Prelude.{◌≡◌, true, OnOk, OnErr};
ghost use Rattle.poa_history.specs.Turns as turns;
ghost use Rattle.core_standing.specs.Seen.{seen};
ghost use Rattle.core_state.specs.Kept.{kept_in};
ghost use Rattle.core_state.specs.Steps.{Brings, Incarnates, IsUnchanged, is_new};

use crate::kinds::{kind_brought, restored};
use crate::servants::Servants;
use core_standing::Standing;
use core_standing::searches::activation_numbered;
use history_standing::Activation;
use poa_base::{Config, Incarnation, WantMemory};
use servant_kinds::Servant;
use std::alloc::Global;

/// Brings a fresh servant of an activation.
fn bring_for(
    alloc: Global,
    config: &Config,
    number: u32,
    activation: &Activation,
    servants: &mut Servants,
) -> Result<(), WantMemory>
    ensures ok { OnOk result
        (Brings config.now number (Some activation.now) (kept_in servants.old)
        (kept_in servants.new)) }
    ensures err { OnErr result (IsUnchanged (kept_in servants.old) (kept_in servants.new)) }
{
    let kind = kind_brought(config, activation);
    let state = restored(
        alloc,
        kind,
        servants.store.get(&activation.path, &activation.oid),
    )?;
    servants.store.reserve(&activation.path, &activation.oid)?;
    servants.fresh.insert(number, Servant::new(alloc, state))?;
    Ok(())
}

/// Brings the fresh servant of an activation, in the state that is stored for its id, or else as its kind
/// opens, and makes room for its state in the store. `WantMemory`: no memory was left, and every state is
/// as it was.
pub fn bring(
    alloc: Global,
    config: &Config,
    number: u32,
    standing: &Standing,
    servants: &mut Servants,
) -> Result<(), WantMemory>
    ensures ok { OnOk result
        (Brings config.now number (turns.activation_numbered (seen standing.now) number)
        (kept_in servants.old) (kept_in servants.new)) }
    ensures err { OnErr result (IsUnchanged (kept_in servants.old) (kept_in servants.new)) }
{
    match activation_numbered(standing, number) {
        Some(activation) => bring_for(alloc, config, number, activation, servants),
        None => Ok(()),
    }
}

/// The answer of the servant activator: a fresh servant is brought, and every other answer leaves the
/// servants.
pub fn incarnate(
    alloc: Global,
    config: &Config,
    answer: &Incarnation,
    standing: &Standing,
    servants: &mut Servants,
) -> Result<(), WantMemory>
    ensures ok { OnOk result
        (Incarnates config.now answer.now (seen standing.now) (kept_in servants.old)
        (kept_in servants.new)) }
    ensures err { OnErr result (IsUnchanged (kept_in servants.old) (kept_in servants.new)) }
    ensures ends { OnErr result (is_new answer.now ≡ true) }
{
    match answer {
        Incarnation::Fresh(number) => bring(alloc, config, *number, standing, servants),
        Incarnation::Named(_)
        | Incarnation::Double
        | Incarnation::Forward(_)
        | Incarnation::Raise(_) => Ok(()),
    }
}
