//! Reading a configuration.
ghost use Rattle.std.specs.Prelude.{◌≡◌, IfOk};
ghost use Rattle.toml.specs.View.{table_view};
ghost use Rattle.conf_fields.specs.FieldGives.{FieldGives};
ghost use Rattle.poa_policy.specs.Kept.{KeepsRules};
ghost use Rattle.conf_toml.specs.Configuration.{config_of, ReadAs};

use crate::adapter::adapters;
use crate::forward::forwards;
use crate::manager::managers;
use crate::object::{Homes, objects};
use crate::servant::servants;
use crate::settings::top_settings;
use conf_fields::ConfFault;
use poa_base::Config;
use std::alloc::Global;
use toml::Table;

/// The configuration of a document's table.
#[tactic(auto, unfolding(crate::specs::Configuration::config_of))]
fn config(alloc: Global, top: &Table) -> Result<Config, ConfFault>
    ensures value { FieldGives result (config_of (table_view top.now)) }
    ensures rules { IfOk result KeepsRules }
{
    let settings = top_settings(alloc, top)?;
    let (managers, manager_numbers) = managers(alloc, top)?;
    let (servants, servant_numbers) = servants(alloc, top)?;
    let (adapters, paths) = adapters(alloc, top, &manager_numbers, &servant_numbers)?;
    let homes = Homes {
        paths: &paths,
        adapters: adapters.as_slice(),
        servants: &servant_numbers,
    };
    let objects = objects(alloc, top, &homes)?;
    let forwards = forwards(alloc, top)?;
    Ok(Config {
        run: settings.run,
        host: settings.host,
        port: settings.port,
        admin_port: settings.admin_port,
        gate_ms: settings.gate_ms,
        root: settings.root,
        managers,
        servants,
        adapters,
        objects,
        forwards,
    })
}

/// The configuration that the bytes are.
///
/// `NotToml` exactly where they are no TOML document. Else the first fault, table by table in the order of
/// docs/FORMATS.md, entry by entry, key by key, with the path of its key. An absent key has its default;
/// names are turned into numbers. The time is near linear in the bytes.
pub fn read_config(alloc: Global, bytes: &[u8]) -> Result<Config, ConfFault>
    ensures read { ReadAs bytes.now result }
    // The rules that docs/FORMATS.md has beside each key.
    ensures rules { IfOk result KeepsRules }
{
    match toml::table_from_slice(alloc, bytes) {
        Ok(table) => config(alloc, &table),
        Err(fault) => {
            if fault.is_memory() {
                Err(ConfFault::WantMemory)
            } else {
                Err(ConfFault::NotToml)
            }
        }
    }
}
