//! The adapter at the path of a call's key.
ghost use Rattle.std.specs.Prelude.{◌≡◌, IfOk, Some};
ghost use Rattle.history_standing.specs.Keys as keys;
ghost use Rattle.journal_explain.specs.Adapters as adapters;

use core_run::Run;
use core_standing::keys::key_in;
use history_standing::templates::{manager_at, policies_at};
use poa_base::{Call, Config, Name, PolicySet, WantMemory};
use std::alloc::Global;

/// The adapter of this number, as it stood.
#[derive(Drop)]
pub struct Adapter {
    pub number: u32,
    pub policies: PolicySet,
    /// The number of its manager.
    pub manager: u32,
    /// The name of its manager; `root` has none in the configuration.
    pub name: Option<Name>,
}

/// The adapter at the path of a call's key, also while it is being destroyed, as it stands in a run.
pub(crate) fn adapter_at(
    alloc: Global,
    run: &Run,
    call: &Call,
) -> Result<Option<Adapter>, WantMemory>
    ensures { IfOk result (λ adapter. adapter ≡ adapters.adapter_at run.now.config run.now.run
        run.now.history (keys.key_in (Some call.now))) }
{
    let Some(key) = key_in(Some(call)) else {
        return Ok(None);
    };
    let path = key.path().to_path(alloc)?;
    match run.adapter_number(&path) {
        Some(number) => Ok(Some(adapter_of(run.config(), path.as_slice(), number)?)),
        None => Ok(None),
    }
}

/// The adapter of this number, which stands at a path.
fn adapter_of(config: &Config, path: &[Name], number: u32) -> Result<Adapter, WantMemory>
    ensures { IfOk result (λ adapter. adapter ≡ adapters.adapter_of config.now path.now number) }
{
    let manager = manager_at(config, path);
    let name = name_at(config, manager)?;
    Ok(Adapter {
        number,
        policies: policies_at(config, path),
        manager,
        name,
    })
}

/// The name that a manager has in the configuration.
fn name_at(config: &Config, manager: u32) -> Result<Option<Name>, WantMemory>
    ensures { IfOk result (λ name. name ≡ adapters.name_at config.now manager) }
{
    if manager == 0 {
        return Ok(None);
    }
    match config.managers.as_slice().get(manager as usize - 1) {
        Some(conf) => Ok(Some(conf.name.clone()?)),
        None => Ok(None),
    }
}
