//! The endpoints of paths, to which requests are forwarded.
ghost use Rattle.std.specs.Prelude.{◌≡◌, ◌≤◌, [], List, IfOk, OnOk, OnErr, length, take, drop, option_copied, position};
ghost use Rattle.history_standing.specs.Paths.{same_path};
ghost use Rattle.history_standing.specs.Logs as logs;
ghost use Rattle.core_settings.specs.Told.{IsEndpointSet, endpoint_in, endpoint_row, forward_in, SettingsTell};

use crate::settings::Settings;
use poa_base::{Config, Endpoint, Name, Path, WantMemory};
use std::alloc::Global;
use std::marker::Model;

/// The endpoint that was set for a path; none where it was taken away.
#[derive(Drop)]
pub struct EndpointRow {
    pub path: Path,
    pub endpoint: Option<Endpoint>,
}

/// The endpoints that were set or taken away. Each path has one row at most.
#[derive(Drop)]
pub struct Endpoints {
    rows: Vec<EndpointRow>,
}

impl Model for Endpoints {
    ghost use Rattle.std.specs.Prelude.{List};
    ghost use Rattle.core_settings.specs.declared.endpoints.EndpointRow.{EndpointRow};

    ghost Value = { List EndpointRow };

    ghost view = { λ e. e.rows.items };
}

impl Endpoints {
    /// None. Takes no memory.
    pub fn new(alloc: Global) -> Self
        ensures { result ≡ [] }
    {
        Endpoints {
            rows: Vec::new(alloc),
        }
    }

    /// Sets the endpoint of a path, or that it has none, in place of what was set before.
    pub fn set(&mut self, path: &Path, endpoint: Option<&Endpoint>) -> Result<(), WantMemory>
        ensures ok { OnOk result
            (IsEndpointSet path.now (option_copied endpoint.entry) self.old self.new) }
        ensures err { OnErr result (self.new ≡ self.old) }
    {
        let row = EndpointRow {
            path: path.clone()?,
            endpoint: copied(endpoint)?,
        };
        put(row, &mut self.rows)
    }

    /// What was set for a path. Takes no memory.
    pub fn get(&self, path: &[Name]) -> Option<&EndpointRow>
        ensures { option_copied result ≡ endpoint_row self.now path.now }
    {
        self.rows.iter().find(|row| row.path.as_slice() == path)
    }
}

/// The same endpoint.
fn copied(endpoint: Option<&Endpoint>) -> Result<Option<Endpoint>, WantMemory>
    ensures { IfOk result (λ copy. copy ≡ option_copied endpoint.entry) }
{
    match endpoint {
        Some(endpoint) => Ok(Some(endpoint.clone()?)),
        None => Ok(None),
    }
}

/// The place of what was set for a path.
fn place_of(rows: &[EndpointRow], path: &Path) -> Option<usize>
    ensures { result ≡ position (λ r. same_path r.path path.now) rows.now }
{
    rows.iter().position(|row| row.path == *path)
}

/// Puts a row in the place of the one of its path, or behind all.
fn put(row: EndpointRow, rows: &mut Vec<EndpointRow>) -> Result<(), WantMemory>
    ensures ok { OnOk result (IsEndpointSet row.path row.endpoint rows.old.items rows.new.items) }
    ensures err { OnErr result (rows.new.items ≡ rows.old.items) }
{
    match place_of(rows, &row.path) {
        Some(place) => {
            rows[place] = row;
            Ok(())
        }
        None => Ok(rows.push(row)?),
    }
}

/// The configured endpoint of a path.
fn configured<'a>(config: &'a Config, path: &[Name]) -> Option<&'a Endpoint>
    ensures { option_copied result ≡ logs.endpoint_of config.now [] path.now }
{
    let forward = config
        .forwards
        .as_slice()
        .iter()
        .find(|forward| forward.path.as_slice() == path)?;
    Some(&forward.endpoint)
}

/// The endpoint of a path. Takes no memory.
pub fn endpoint_of<'a>(
    config: &'a Config,
    settings: &'a Settings,
    path: &[Name],
) -> Option<&'a Endpoint>
    ensures { option_copied result ≡ endpoint_in config.now settings.now path.now }
{
    match settings.endpoints.get(path) {
        Some(row) => row.endpoint.as_ref(),
        None => configured(config, path),
    }
}

/// The endpoint of the longest path that leads to this one and has so many names at least.
fn forward_from<'a>(
    config: &'a Config,
    settings: &'a Settings,
    path: &[Name],
    depth: usize,
) -> Option<&'a Endpoint>
    requires { depth ≤ length path.now }
    ensures { option_copied result
        ≡ logs.forward_from (endpoint_in config.now settings.now) (take depth path.now)
        (drop depth path.now) }
{
    if depth == path.len() {
        return endpoint_of(config, settings, path);
    }
    match forward_from(config, settings, path, depth + 1) {
        Some(endpoint) => Some(endpoint),
        None => endpoint_of(config, settings, &path[..depth]),
    }
}

/// The endpoint of the longest path that leads to this one. Takes no memory.
pub fn forward_of<'a>(
    config: &'a Config,
    settings: &'a Settings,
    path: &[Name],
) -> Option<&'a Endpoint>
    ensures value { option_copied result ≡ forward_in config.now settings.now path.now }
    ensures told { SettingsTell config.now settings.now
        (λ past. option_copied result ≡ logs.forward_of config.now past path.now) }
{
    forward_from(config, settings, path, 0)
}
