//! What stands, what is set, and the servants.
ghost use Rattle.std.specs.Prelude.{[], IfOk};
ghost use Rattle.poa_base.specs.Store.{stored as stored_in};
ghost use Rattle.core_state.specs.State.{StateAgrees};

use crate::servants::Servants;
use core_settings::Settings;
use core_standing::Standing;
use poa_base::{Config, Store, WantMemory};
use std::alloc::Global;

/// What a history comes to.
#[derive(Drop)]
pub struct State {
    /// The adapters, what is in flight, and the activations.
    pub standing: Standing,
    /// What the administrator's commands have set.
    pub settings: Settings,
    /// The servants in their states, and what is stored.
    pub servants: Servants,
}

/// What there is before the first entry of a run.
pub fn opening(alloc: Global, config: &Config, run: u32, store: &Store) -> Result<State, WantMemory>
    ensures { IfOk result (λ state. StateAgrees config.now run (stored_in store.now) [] state) }
{
    Ok(State {
        standing: core_standing::opening(alloc, config, run)?,
        settings: core_settings::opening(alloc, config)?,
        servants: crate::starting::opening(alloc, config, store)?,
    })
}
