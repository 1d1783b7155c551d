//! The keys of the top table that aren't arrays of tables.
ghost use Rattle.std.specs.Prelude.{◌≡◌, ◌≤◌, true, IfOk};
ghost use Rattle.toml.specs.View.{table_view};
ghost use Rattle.conf_fields.specs.FieldGives.{FieldGives};
ghost use Rattle.conf_fields.specs.Look.{only_known};
ghost use Rattle.conf_fields.specs.declared.Place.TheVariants as place;
ghost use Rattle.text_words.specs.Name.{is_host};
ghost use Rattle.conf_toml.specs.Settings.{settings_of, top_keys as the_top_keys};

use conf_fields::{ConfFault, Place, host_or, known_keys, number_or, port_or, word_or};
use poa_base::{Bytes, ManagerState};
use std::alloc::Global;
use toml::Table;

/// What the top table says beside its arrays of tables.
#[derive(Drop)]
pub struct Settings {
    pub run: u32,
    pub host: Bytes,
    pub port: u16,
    pub admin_port: u16,
    pub gate_ms: u32,
    pub root: ManagerState,
}

#[tactic(auto, unfolding(crate::specs::Settings::top_keys))]
fn top_keys(alloc: Global, top: &Table) -> Result<(), ConfFault>
    ensures { FieldGives result (only_known the_top_keys place.Top (table_view top.now)) }
{
    let keys = [
        "run",
        "host",
        "port",
        "admin_port",
        "gate_ms",
        "root",
        "manager",
        "servant",
        "adapter",
        "object",
        "forward",
    ];
    known_keys(alloc, Place::Top, top, &keys)
}

/// The settings of the document.
#[tactic(auto, unfolding(crate::specs::Settings::settings_of))]
pub(crate) fn top_settings(alloc: Global, top: &Table) -> Result<Settings, ConfFault>
    ensures value { FieldGives result (settings_of (table_view top.now)) }
    ensures host { IfOk result (λ s. is_host s.host ≡ true) }
    ensures ports { IfOk result (λ s. (1 ≤ s.port) × (1 ≤ s.admin_port)) }
    ensures gate { IfOk result (λ s. s.gate_ms ≤ 10000) }
{
    let at = Place::Top;
    let run = number_or(alloc, at, top, "run", u32::MAX, 1)?;
    let host = host_or(alloc, at, top, "host", "127.0.0.1")?;
    let port = port_or(alloc, at, top, "port", 2809)?;
    let admin_port = port_or(alloc, at, top, "admin_port", 2810)?;
    let gate_ms = number_or(alloc, at, top, "gate_ms", 10000, 0)?;
    let root = word_or(alloc, at, top, "root", ManagerState::Holding)?;
    top_keys(alloc, top)?;
    Ok(Settings {
        run,
        host,
        port,
        admin_port,
        gate_ms,
        root,
    })
}
