//! What the administrator's commands have set.
ghost use Rattle.std.specs.Prelude.{◌≡◌, [], false, option_copied, IfOk, IsOk, OnOk, OnErr};
ghost use Rattle.core_settings.specs.Told.{SettingsAgree, may_grow, SettingsFollow};
ghost use Rattle.core_settings.specs.Changed.{Follows};

use crate::endpoints::Endpoints;
use crate::managers::Managers;
use crate::presets::Presets;
use crate::states::set_state;
use poa_base::{Command, Config, Entry, WantMemory};
use std::alloc::Global;

/// What the administrator's commands have set. Of each path the last command counts, and has one row.
#[derive(Drop)]
pub struct Settings {
    /// The states of the managers.
    pub managers: Managers,
    /// The default servants that were set.
    pub presets: Presets,
    /// The endpoints that were set or taken away.
    pub endpoints: Endpoints,
}

/// What is set before the first entry: the managers are as configured.
pub fn opening(alloc: Global, config: &Config) -> Result<Settings, WantMemory>
    ensures { IfOk result (λ settings. SettingsAgree config.now [] settings) }
{
    Ok(Settings {
        managers: Managers::new(alloc, config)?,
        presets: Presets::new(alloc),
        endpoints: Endpoints::new(alloc),
    })
}

/// Sets what a command sets, if it sets something.
fn change(
    config: &Config,
    command: Option<&Command>,
    settings: &mut Settings,
) -> Result<(), WantMemory>
    ensures ok { OnOk result
        (Follows config.now (option_copied command.entry) settings.old settings.new) }
    ensures err { OnErr result (settings.new ≡ settings.old) }
    ensures ends { may_grow (option_copied command.entry) ≡ false → IsOk result }
{
    match command {
        Some(Command::Manager { manager, order }) => {
            set_state(config, manager, *order, &mut settings.managers);
            Ok(())
        }
        Some(Command::Preset { path, servant }) => settings.presets.set(path, servant),
        Some(Command::Forward { path, endpoint }) => {
            settings.endpoints.set(path, Some(endpoint))
        }
        Some(Command::Unforward { path }) => settings.endpoints.set(path, None),
        _ => Ok(()),
    }
}

/// Takes in an entry, by the command that it does, if it does one. The lines `default`, `forward` and
/// `unforward` may need a row of their own, and are answered by `WantMemory`, with all as it was, where
/// there is no memory for it; no other command needs any.
pub fn apply(
    config: &Config,
    command: Option<&Command>,
    settings: &mut Settings,
) -> Result<(), WantMemory>
    ensures ok { SettingsFollow config.now (option_copied command.entry) settings.old result
        settings.new }
    ensures err { OnErr result (settings.new ≡ settings.old) }
    ensures ends { may_grow (option_copied command.entry) ≡ false → IsOk result }
{
    change(config, command, settings)
}
