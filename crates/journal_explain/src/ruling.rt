//! By what a call is held or admitted.
ghost use Rattle.std.specs.Prelude.{◌≡◌, ◌≤◌, IfOk, length, take, drop, option_map};
ghost use Rattle.core_settings.specs.Told.{endpoint_in};
ghost use Rattle.journal_explain.specs.Origins as origins;
ghost use Rattle.journal_explain.specs.declared.setting.Setting.TheVariants as settings;

use crate::deciding::row_of;
use crate::facing::{call_of, facts};
use crate::row::Row;
use crate::setting::Setting;
use crate::wait::Wait;
use core_run::Run;
use core_settings::{Settings, endpoint_of};
use core_standing::keys::key_in;
use held_queue::Hold;
use poa_base::{Config, Entry, Name, Path, WantMemory};
use poa_choose::Facts;
use std::alloc::Global;

/// By what a call is held that waits: a manager's state, if by one's.
pub(crate) fn holder(wait: Option<Wait>) -> Option<Setting>
    ensures { result ≡ origins.holder wait }
{
    match wait {
        Some(Wait::Held(Hold::Manager(manager))) => Some(Setting::Manager(manager)),
        _ => None,
    }
}

/// By what the next entry of a run admits a request or a locate.
pub(crate) fn ruler(
    alloc: Global,
    run: &Run,
    entry: &Entry,
    arrival: u64,
) -> Result<Option<Setting>, WantMemory>
    ensures { IfOk result (λ setting. setting
        ≡ origins.ruler run.now.config run.now.run run.now.history entry.now arrival) }
{
    match entry {
        Entry::Admit {
            worker,
            arrival: admitted,
            ..
        } if *admitted == arrival => ruler_for(alloc, run, arrival, *worker),
        _ => Ok(None),
    }
}

/// By what the worker admits it.
fn ruler_for(
    alloc: Global,
    run: &Run,
    arrival: u64,
    worker: u32,
) -> Result<Option<Setting>, WantMemory>
    ensures { IfOk result (λ setting. setting
        ≡ origins.ruler_for run.now.config run.now.run run.now.history arrival worker) }
{
    match facts(alloc, run, arrival)? {
        Some(facts) => setting_by(alloc, run, arrival, row_of(&facts, worker), &facts),
        None => Ok(None),
    }
}

/// By what a row applies to a call.
fn setting_by(
    alloc: Global,
    run: &Run,
    arrival: u64,
    row: Row,
    facts: &Facts,
) -> Result<Option<Setting>, WantMemory>
    ensures { IfOk result (λ setting. setting
        ≡ origins.setting_by run.now.config run.now.history
        (origins.path_of run.now.history arrival) row facts.now) }
{
    match row {
        Row::ParentManager | Row::Manager => Ok(Some(Setting::Manager(facts.manager))),
        Row::ChildForward => forwarded_by(run, path_of(alloc, run, arrival)?),
        Row::DefaultServant => Ok(Some(Setting::DefaultServant(path_of(alloc, run, arrival)?))),
        _ => Ok(None),
    }
}

/// The path of a call's key.
fn path_of(alloc: Global, run: &Run, arrival: u64) -> Result<Path, WantMemory>
    ensures { IfOk result (λ path. path ≡ origins.path_of run.now.history arrival) }
{
    match key_in(call_of(run, arrival)) {
        Some(key) => Ok(key.path().to_path(alloc)?),
        None => Ok(Path::root(alloc)),
    }
}

/// The endpoint that calls for this path are forwarded to, by the path that has it.
fn forwarded_by(run: &Run, path: Path) -> Result<Option<Setting>, WantMemory>
    ensures { IfOk result (λ setting. setting
        ≡ option_map settings.Endpoint (origins.forwarding run.now.config run.now.history path)) }
{
    run.keeps_laws();
    let depth = depth_from(run.config(), &run.state().settings, path.as_slice(), 0);
    match depth {
        Some(depth) => Ok(Some(Setting::Endpoint(cut(path, depth)?))),
        None => Ok(None),
    }
}

/// How many names the longest path has that leads to this one, has so many at least, and an endpoint.
fn depth_from(config: &Config, settings: &Settings, path: &[Name], depth: usize) -> Option<usize>
    requires { depth ≤ length path.now }
    ensures { option_map (λ found. take found path.now) result
        ≡ origins.forwarding_from (endpoint_in config.now settings.now) (take depth path.now)
        (drop depth path.now) }
{
    if depth == path.len() {
        return depth_with(config, settings, path, depth);
    }
    match depth_from(config, settings, path, depth + 1) {
        Some(found) => Some(found),
        None => depth_with(config, settings, path, depth),
    }
}

/// The count of names, where the path of so many has an endpoint.
fn depth_with(config: &Config, settings: &Settings, path: &[Name], depth: usize) -> Option<usize>
    requires { depth ≤ length path.now }
    ensures { option_map (λ found. take found path.now) result
        ≡ option_map (λ found. take depth path.now) (endpoint_in config.now settings.now (take depth path.now)) }
{
    match endpoint_of(config, settings, &path[..depth]) {
        Some(_) => Some(depth),
        None => None,
    }
}

/// The first so many names of a path.
fn cut(path: Path, depth: usize) -> Result<Path, WantMemory>
    ensures { IfOk result (λ cut. cut ≡ take depth path) }
{
    let mut names = path.into_vec();
    names.truncate(depth);
    Path::from_vec(names).ok_or(WantMemory)
}
