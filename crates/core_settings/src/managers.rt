//! The states of the managers.
ghost use Rattle.std.specs.Prelude.{◌≡◌, ◌<◌, ◌++◌, map, IfOk, OnOk, length, slice_set};
ghost use Rattle.core_settings.specs.States.{start_states, state_at};

use poa_base::{Config, ManagerConf, ManagerState, WantMemory};
use std::alloc::Global;
use std::marker::Model;

/// The state of each manager, by its number: 0 is `root`, and the configured ones follow.
#[derive(Drop)]
pub struct Managers {
    states: Vec<ManagerState>,
}

impl Model for Managers {
    ghost use Rattle.std.specs.Prelude.{List};
    ghost use Rattle.poa_base.specs.declared.ManagerState.{ManagerState};

    ghost Value = { List ManagerState };

    ghost view = { λ m. m.states.items };
}

impl Managers {
    /// The managers of a configuration, each in its configured state.
    pub fn new(alloc: Global, config: &Config) -> Result<Self, WantMemory>
        ensures { IfOk result (λ managers. managers ≡ start_states config.now) }
    {
        let mut states = Vec::new(alloc);
        states.push(config.root)?;
        add_starts(config.managers.as_slice(), &mut states)?;
        Ok(Managers { states })
    }

    /// How many managers there are.
    pub fn len(&self) -> usize
        ensures { result ≡ length self.now }
    {
        self.states.len()
    }

    /// The state of a manager. Takes no memory.
    pub fn state(&self, manager: u32) -> ManagerState
        requires { manager < length self.now }
        ensures { result ≡ state_at self.now manager }
    {
        self.states[manager as usize]
    }

    /// Gives a manager this state whatever it was: an order to an INACTIVE one is refused before it is done.
    /// Takes no memory.
    pub fn put(&mut self, manager: usize, state: ManagerState)
        requires { manager < length self.old }
        ensures { self.new ≡ slice_set self.old manager state }
    {
        self.states[manager] = state;
    }
}

/// Adds each manager's configured state.
fn add_starts(managers: &[ManagerConf], states: &mut Vec<ManagerState>) -> Result<(), WantMemory>
    ensures { OnOk result (states.new.items ≡ states.old.items ++ map (λ m. m.start) managers.now) }
{
    for manager in managers {
        states.push(manager.start)?;
    }
    Ok(())
}
