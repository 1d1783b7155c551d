//! The states of the servants, and what is stored.
ghost use Rattle.std.specs.Prelude.{◌≡◌, reverse, option_copied, unwrap_or, IfOk};
ghost use Rattle.poa_base.specs.Store.{stored as stored_at_opening};
ghost use Rattle.poa_base.specs.declared.State.TheVariants.{Fault};
ghost use Rattle.poa_history.specs.States as states;
ghost use Rattle.poa_model.specs.Kept as keeps;

use crate::servant_state::ServantState;
use crate::stored_state::StoredState;
use active_map::activation::same_servant;
use poa_base::{Config, Oid, Path, Sid, State, Store, WantMemory};

/// Each state that an entry left, after the ones before it.
#[derive(Drop)]
pub struct Kept {
    pub servants: Vec<ServantState>,
    pub places: Vec<StoredState>,
}

/// The state with which a servant opens; none for a fresh one.
fn configured_state(config: &Config, servant: Sid) -> Option<&State>
    ensures { unwrap_or (option_copied result) Fault ≡ states.configured_state config.now servant }
{
    match servant {
        Sid::Named(number) => match config.servants.as_slice().get(number as usize) {
            Some(conf) => Some(&conf.state),
            None => None,
        },
        Sid::Fresh(_) => None,
    }
}

/// The state of a servant: the one that was left last, else the one with which it opens.
fn state_found<'a>(
    config: &'a Config,
    servants: &'a [ServantState],
    servant: Sid,
) -> Option<&'a State>
    ensures { unwrap_or (option_copied result) Fault
        ≡ keeps.state_in config.now (reverse servants.now) servant }
{
    let mut found = configured_state(config, servant);
    for left in servants {
        if same_servant(servant, left.servant) {
            found = Some(&left.state);
        }
    }
    found
}

/// The state of a servant.
pub fn state_in(
    config: &Config,
    servants: &[ServantState],
    servant: Sid,
) -> Result<State, WantMemory>
    ensures { IfOk result
        (λ state. state ≡ keeps.state_in config.now (reverse servants.now) servant) }
{
    match state_found(config, servants, servant) {
        Some(state) => state.clone(),
        None => Ok(State::Fault),
    }
}

/// What is stored for an id of a path: what was left last, else what was stored when the run began.
pub fn stored_in<'a>(
    store: &'a Store,
    places: &'a [StoredState],
    path: &Path,
    oid: &Oid,
) -> Option<&'a State>
    ensures { option_copied result
        ≡ keeps.stored_in (stored_at_opening store.now) (reverse places.now) path.now oid.now }
{
    let mut found = store.get(path, oid);
    for left in places {
        if left.path == *path && left.oid == *oid {
            found = Some(&left.state);
        }
    }
    found
}
