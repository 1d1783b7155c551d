//! What the commands of a history have set.
ghost use Rattle.std.specs.Prelude.{◌≡◌, [], reverse, IfOk, OnOk};
ghost use Rattle.core_settings.specs.Told.{SettingsAgree};

use core_settings::{Settings, apply, opening};
use core_standing::asked_commands::command_done;
use poa_base::{Config, Entry, WantMemory};
use std::alloc::Global;

/// Takes in the entries of a history that stands oldest first.
fn follow(config: &Config, history: &[Entry], settings: &mut Settings) -> Result<(), WantMemory>
    ensures { SettingsAgree config.now [] settings.old
        → OnOk result (SettingsAgree config.now (reverse history.now) settings.new) }
{
    for (i, entry) in history.iter().enumerate() {
        apply(config, command_done(&history[..i], entry), settings)?;
    }
    Ok(())
}

/// What is set after a history that stands oldest first.
pub fn settings_of(
    alloc: Global,
    config: &Config,
    history: &[Entry],
) -> Result<Settings, WantMemory>
    ensures { IfOk result (λ settings. SettingsAgree config.now (reverse history.now) settings) }
{
    let mut settings = opening(alloc, config)?;
    follow(config, history, &mut settings)?;
    Ok(settings)
}
