//! The default servants of paths.
ghost use Rattle.std.specs.Prelude.{◌≡◌, [], OnOk, OnErr, option_copied, option_map, position};
ghost use Rattle.history_standing.specs.Paths.{same_path};
ghost use Rattle.history_standing.specs.Logs as logs;
ghost use Rattle.core_settings.specs.Told.{IsPresetSet, preset_in, preset_row};

use crate::settings::Settings;
use history_standing::templates::{preset_at, servant_name};
use poa_base::{Config, Name, Path, WantMemory};
use std::alloc::Global;
use std::marker::Model;

/// The default servant that was set for a path.
#[derive(Drop)]
pub struct PresetRow {
    pub path: Path,
    pub servant: Name,
}

/// The default servants that were set. Each path has one row at most.
#[derive(Drop)]
pub struct Presets {
    rows: Vec<PresetRow>,
}

impl Model for Presets {
    ghost use Rattle.std.specs.Prelude.{List};
    ghost use Rattle.core_settings.specs.declared.presets.PresetRow.{PresetRow};

    ghost Value = { List PresetRow };

    ghost view = { λ p. p.rows.items };
}

impl Presets {
    /// None. Takes no memory.
    pub fn new(alloc: Global) -> Self
        ensures { result ≡ [] }
    {
        Presets {
            rows: Vec::new(alloc),
        }
    }

    /// Sets the default servant of a path, in place of the one that was set before.
    pub fn set(&mut self, path: &Path, servant: &Name) -> Result<(), WantMemory>
        ensures ok { OnOk result (IsPresetSet path.now servant.now self.old self.new) }
        ensures err { OnErr result (self.new ≡ self.old) }
    {
        let row = PresetRow {
            path: path.clone()?,
            servant: servant.clone()?,
        };
        put(row, &mut self.rows)
    }

    /// The default servant that was set for a path. Takes no memory.
    pub fn get(&self, path: &[Name]) -> Option<&Name>
        ensures { option_copied result
            ≡ option_map (λ r. r.servant) (preset_row self.now path.now) }
    {
        let row = self.rows.iter().find(|row| row.path.as_slice() == path)?;
        Some(&row.servant)
    }
}

/// The place of what was set for a path.
fn place_of(rows: &[PresetRow], path: &Path) -> Option<usize>
    ensures { result ≡ position (λ r. same_path r.path path.now) rows.now }
{
    rows.iter().position(|row| row.path == *path)
}

/// Puts a row in the place of the one of its path, or behind all.
fn put(row: PresetRow, rows: &mut Vec<PresetRow>) -> Result<(), WantMemory>
    ensures ok { OnOk result (IsPresetSet row.path row.servant rows.old.items rows.new.items) }
    ensures err { OnErr result (rows.new.items ≡ rows.old.items) }
{
    match place_of(rows, &row.path) {
        Some(place) => {
            rows[place] = row;
            Ok(())
        }
        None => Ok(rows.push(row)?),
    }
}

/// The configured default servant of a path.
fn configured<'a>(config: &'a Config, path: &[Name]) -> Option<&'a Name>
    ensures { option_copied result ≡ logs.preset_of config.now [] path.now }
{
    servant_name(config, preset_at(config, path)?)
}

/// The default servant of a path. Takes no memory.
pub fn preset_of<'a>(config: &'a Config, settings: &'a Settings, path: &[Name]) -> Option<&'a Name>
    ensures { option_copied result ≡ preset_in config.now settings.now path.now }
{
    match settings.presets.get(path) {
        Some(servant) => Some(servant),
        None => configured(config, path),
    }
}
