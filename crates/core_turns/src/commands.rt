//! The verdict on an administrator's command: done with its answer, refused for the first reason of its
//! row, or held, which is none.
ghost use Rattle.std.specs.Prelude.{◌≡◌, ◌==◌, ◌&&◌, ◌||◌, ℕ, List, Some, None, if◌then◌else◌, not, suc, take, drop, length, nat_lt, nat_le, is_some, IfOk};
ghost use Rattle.poa_base.specs.declared.limits.TheConstants.{ADAPTERS};
ghost use Rattle.poa_base.specs.declared.Answer.{Answer};
ghost use Rattle.poa_base.specs.declared.Reason.{Reason};
ghost use Rattle.poa_base.specs.declared.Verdict.{Verdict};
ghost use Rattle.history_standing.specs.Logs.{endpoint_of as endpoint_is};
ghost use Rattle.std.specs.List.{list_any};
ghost use Rattle.std.specs.Int.{w32, from_be_bytes};
ghost use Rattle.history_standing.specs.Commands as rows;
ghost use Rattle.history_standing.specs.Ends as ends;
ghost use Rattle.history_standing.specs.Standings as stands;
ghost use Rattle.history_standing.specs.Opening.{made_id as id_made};
ghost use Rattle.history_standing.specs.Nodes as tree;
ghost use Rattle.core_standing.specs.Seen.{seen};
ghost use Rattle.core_settings.specs.Told.{SettingsTell};
ghost use Rattle.poa_base.specs.declared.Config.{Config as Conf};
ghost use Rattle.history_standing.specs.Templates as configured;

use crate::answered::{good, good_or_wait, refusal};
use crate::referring::reference_row;
use active_map::Activations;
use core_settings::{Settings, endpoint_of, manager_state};
use core_standing::Standing;
use core_standing::asked_commands::live_at;
use core_standing::ids::{made_id, next};
use core_standing::searches::is_in_map;
use history_standing::Node;
use history_standing::flights::is_tried;
use history_standing::nodes::node_at;
use history_standing::paths::parent_path;
use history_standing::templates::{has_template, manager_number, policies_at, servant_number};
use poa_base::limits::ADAPTERS;
use poa_base::{
    Answer, Command, Config, ManagerState, Name, Oid, Order, Path, PolicySet, Reason, Sid, Verdict,
    WantMemory,
};
use std::alloc::Global;

/// Whether the order waits until what it concerns has ended.
fn waits(order: Order) -> bool
    ensures { result ≡ rows.waits order }
{
    match order {
        Order::Activate => false,
        Order::Hold { wait } | Order::Discard { wait } | Order::Deactivate { wait, .. } => wait,
    }
}

fn is_inactive(state: ManagerState) -> bool
    ensures { result ≡ rows.is_inactive state }
{
    match state {
        ManagerState::Inactive => true,
        ManagerState::Holding | ManagerState::Active | ManagerState::Discarding => false,
    }
}

fn manager_row(
    config: &Config,
    settings: &Settings,
    name: &Name,
    order: Order,
) -> Result<Option<Verdict>, WantMemory>
    ensures { SettingsTell config.now settings.now (λ past. IfOk result
        (λ verdict. verdict ≡ rows.manager_row config.now past name.now order)) }
{
    let Some(number) = manager_number(config, name) else {
        return Ok(refusal(Reason::NoManager));
    };
    let number = u32::try_from(number).map_err(|_| WantMemory)?;
    if is_inactive(manager_state(settings, number)) {
        Ok(refusal(Reason::AdapterInactive))
    } else {
        Ok(good_or_wait(waits(order)))
    }
}

/// What is answered where a template stands and no trial is in flight.
fn place_row(standing: &Standing, path: &[Name]) -> Option<Verdict>
    ensures { result ≡ elim (tree.node_at standing.now.nodes.items path.now) [
      | Some old ↦ (if old.dying then None else rows.refusal Reason.AdapterAlreadyExists)
      | None ↦ (if nat_le ADAPTERS standing.now.count then rows.refusal
          (Reason.TooMany standing.now.count) else rows.good)
    ] }
{
    match node_at(&standing.nodes, path) {
        Some(old) => {
            if old.dying {
                None
            } else {
                refusal(Reason::AdapterAlreadyExists)
            }
        }
        None => {
            if standing.count >= ADAPTERS {
                refusal(Reason::TooMany {
                    count: standing.count,
                })
            } else {
                good()
            }
        }
    }
}

/// Held while the old adapter of the path is being destroyed, or an adapter activator is asked for it.
fn create_row(config: &Config, standing: &Standing, path: &[Name]) -> Option<Verdict>
    ensures { result ≡ rows.create_row config.now (seen standing.now) path.now }
{
    match path {
        [] => refusal(Reason::AdapterAlreadyExists),
        [_, ..] => {
            if live_at(standing, parent_path(path)).is_none() {
                refusal(Reason::AdapterNonExistent)
            } else if !has_template(config, path) {
                refusal(Reason::NoTemplate)
            } else if is_tried(&standing.flights, path) {
                None
            } else {
                place_row(standing, path)
            }
        }
    }
}

/// Under UNIQUE_ID a servant has one activation at a time.
fn is_taken(config: &Config, standing: &Standing, node: &Node, servant: u32) -> bool
    ensures { result ≡ rows.is_taken config.now (seen standing.now) node.now servant }
{
    policies_at(config, node.path.as_slice()).is_unique()
        && is_in_map(standing, node.number, Sid::Named(servant))
}

/// The answer with a new system-made id.
fn made_row(alloc: Global, run: u32, standing: &Standing) -> Result<Option<Verdict>, WantMemory>
    ensures { IfOk result
        (λ verdict. verdict ≡ Some
        (Verdict.Answer (Answer.GoodId (id_made run (suc standing.now.made))))) }
{
    let oid = made_id(alloc, run, next(standing.made)?)?;
    Ok(Some(Verdict::Answer(Answer::GoodId(oid))))
}

fn activate_row(
    alloc: Global,
    config: &Config,
    run: u32,
    standing: &Standing,
    path: &Path,
    servant: &Name,
) -> Result<Option<Verdict>, WantMemory>
    ensures { IfOk result
        (λ verdict. verdict ≡ rows.activate_row config.now run (seen standing.now) path.now
        servant.now) }
{
    let Some(node) = live_at(standing, path.as_slice()) else {
        return Ok(refusal(Reason::AdapterNonExistent));
    };
    let policies = policies_at(config, path.as_slice());
    if !(policies.retains() && policies.makes_ids()) {
        return Ok(refusal(Reason::WrongPolicy));
    }
    let Some(number) = servant_number(config, servant)? else {
        return Ok(refusal(Reason::NoServant));
    };
    if is_taken(config, standing, node, number) {
        Ok(refusal(Reason::ServantAlreadyActive))
    } else {
        made_row(alloc, run, standing)
    }
}

/// A number of four bytes.
fn ulong(bytes: &[u8]) -> u32
    requires { length bytes.now ≡ 4 }
    ensures { result ≡ from_be_bytes w32 bytes.now }
{
    u32::from_be_bytes([bytes[0], bytes[1], bytes[2], bytes[3]])
}

/// Whether eight bytes name this run with an ordinal that wasn't made.
fn is_unmade(run: u32, made: u32, oid: &[u8]) -> bool
    requires { length oid.now ≡ 8 }
    ensures { result ≡ (from_be_bytes w32 (take 4 oid.now) == run) &&
        ((from_be_bytes w32 (drop 4 oid.now) == 0)
        || nat_lt made (from_be_bytes w32 (drop 4 oid.now))) }
{
    let ordinal = ulong(&oid[4..]);
    ulong(&oid[..4]) == run && (ordinal == 0 || made < ordinal)
}

/// Whether an id is none that an adapter of these policies has made, where it makes its ids.
pub fn is_bad_for(policies: PolicySet, run: u32, made: u32, oid: &[u8]) -> bool
    ensures { (c : Conf) (p : List (List ℕ)) → policies ≡ configured.policies_at c p
        → result ≡ rows.is_bad_id c run made p oid.now }
{
    policies.makes_ids() && (oid.len() != 8 || is_unmade(run, made, oid))
}

/// Whether an id is none that an adapter that makes its ids has made.
fn is_bad_id(config: &Config, run: u32, made: u32, path: &[Name], oid: &[u8]) -> bool
    ensures { result ≡ rows.is_bad_id config.now run made path.now oid.now }
{
    is_bad_for(policies_at(config, path), run, made, oid)
}

/// Whether one of them is of the id and active.
fn is_any_active(activations: &Activations, adapter: u32, oid: &[u8]) -> bool
    ensures { result ≡ list_any (λ a. stands.is_of adapter oid.now a && stands.is_active a)
        activations.now.kept }
{
    activations.active_of(adapter, oid).is_some()
}

/// Whether the id has an activation that is active.
fn has_active(standing: &Standing, adapter: u32, oid: &Oid) -> bool
    ensures { result ≡ list_any (λ a. stands.is_of adapter oid.now a && stands.is_active a)
        (seen standing.now).activations }
{
    is_any_active(&standing.activations, adapter, oid.as_slice())
}

/// Whether one of them is of the id and not over.
fn is_any_kept(config: &Config, activations: &Activations, adapter: u32, oid: &[u8]) -> bool
    ensures { result ≡ list_any
        (λ a. stands.is_of adapter oid.now a && not (ends.is_over config.now a))
        activations.now.kept }
{
    activations.live_of(config, adapter, oid).is_some()
}

/// Whether the id has an activation that isn't over.
fn has_kept(config: &Config, standing: &Standing, adapter: u32, oid: &Oid) -> bool
    ensures { result ≡ list_any
        (λ a. stands.is_of adapter oid.now a && not (ends.is_over config.now a))
        (seen standing.now).activations }
{
    is_any_kept(config, &standing.activations, adapter, oid.as_slice())
}

/// What is answered where the id isn't a bad one. One that is on its way in or out holds.
fn id_row(
    config: &Config,
    standing: &Standing,
    node: &Node,
    oid: &Oid,
    servant: u32,
) -> Option<Verdict>
    ensures { result ≡
        (if list_any (λ a. stands.is_of node.now.number oid.now a && stands.is_active a)
        (seen standing.now).activations then rows.refusal Reason.ObjectAlreadyActive
        else if list_any (λ a. stands.is_of node.now.number oid.now a
        && not (ends.is_over config.now a))
        (seen standing.now).activations then None
        else if rows.is_taken config.now (seen standing.now) node.now servant then rows.refusal
        Reason.ServantAlreadyActive
        else rows.good) }
{
    if has_active(standing, node.number, oid) {
        refusal(Reason::ObjectAlreadyActive)
    } else if has_kept(config, standing, node.number, oid) {
        None
    } else if is_taken(config, standing, node, servant) {
        refusal(Reason::ServantAlreadyActive)
    } else {
        good()
    }
}

fn activate_id_row(
    config: &Config,
    run: u32,
    standing: &Standing,
    path: &Path,
    oid: &Oid,
    servant: &Name,
) -> Result<Option<Verdict>, WantMemory>
    ensures { IfOk result
        (λ verdict. verdict ≡ rows.activate_id_row config.now run (seen standing.now) path.now
        oid.now servant.now) }
{
    let Some(node) = live_at(standing, path.as_slice()) else {
        return Ok(refusal(Reason::AdapterNonExistent));
    };
    if !policies_at(config, path.as_slice()).retains() {
        return Ok(refusal(Reason::WrongPolicy));
    }
    let Some(number) = servant_number(config, servant)? else {
        return Ok(refusal(Reason::NoServant));
    };
    if is_bad_id(config, run, standing.made, path.as_slice(), oid.as_slice()) {
        Ok(refusal(Reason::BadId))
    } else {
        Ok(id_row(config, standing, node, oid, number))
    }
}

fn deactivate_row(config: &Config, standing: &Standing, path: &Path, oid: &Oid) -> Option<Verdict>
    ensures { result ≡ rows.deactivate_row config.now (seen standing.now) path.now oid.now }
{
    let Some(node) = live_at(standing, path.as_slice()) else {
        return refusal(Reason::AdapterNonExistent);
    };
    if !policies_at(config, path.as_slice()).retains() {
        refusal(Reason::WrongPolicy)
    } else if has_active(standing, node.number, oid) {
        good()
    } else {
        refusal(Reason::ObjectNotActive)
    }
}

fn preset_row(
    config: &Config,
    standing: &Standing,
    path: &Path,
    servant: &Name,
) -> Result<Option<Verdict>, WantMemory>
    ensures { IfOk result
        (λ verdict. verdict ≡ rows.preset_row config.now (seen standing.now) path.now servant.now) }
{
    if live_at(standing, path.as_slice()).is_none() {
        return Ok(refusal(Reason::AdapterNonExistent));
    }
    if !policies_at(config, path.as_slice()).uses_default_servant() {
        return Ok(refusal(Reason::WrongPolicy));
    }
    match servant_number(config, servant)? {
        Some(_) => Ok(good()),
        None => Ok(refusal(Reason::NoServant)),
    }
}

fn destroy_row(standing: &Standing, path: &[Name], wait: bool) -> Option<Verdict>
    ensures { result ≡ rows.with_live (seen standing.now) path.now (λ n. rows.good_or_wait wait) }
{
    match live_at(standing, path) {
        Some(_) => good_or_wait(wait),
        None => refusal(Reason::AdapterNonExistent),
    }
}

fn unforward_row(config: &Config, settings: &Settings, path: &Path) -> Option<Verdict>
    ensures { SettingsTell config.now settings.now (λ past. result ≡ (if is_some
        (endpoint_is config.now past path.now) then rows.good else rows.refusal Reason.NoForward)) }
{
    match endpoint_of(config, settings, path.as_slice()) {
        Some(_) => good(),
        None => refusal(Reason::NoForward),
    }
}

/// The verdict on a command.
#[tactic(auto, unfolding(history_standing::specs::Commands::command_verdict))]
pub fn command_verdict(
    alloc: Global,
    config: &Config,
    run: u32,
    standing: &Standing,
    settings: &Settings,
    command: &Command,
) -> Result<Option<Verdict>, WantMemory>
    ensures { SettingsTell config.now settings.now (λ past. IfOk result (λ verdict. verdict
        ≡ rows.command_verdict config.now run past (seen standing.now) command.now)) }
{
    match command {
        Command::Manager { manager, order } => manager_row(config, settings, manager, *order),
        Command::Create { path } => Ok(create_row(config, standing, path.as_slice())),
        Command::Destroy { path, wait, .. } => { Ok(destroy_row(standing, path.as_slice(), *wait)) }
        Command::Activate { path, servant } => {
            activate_row(alloc, config, run, standing, path, servant)
        }
        Command::ActivateId { path, oid, servant } => {
            activate_id_row(config, run, standing, path, oid, servant)
        }
        Command::Deactivate { path, oid } => Ok(deactivate_row(config, standing, path, oid)),
        Command::Reference { path, servant } => {
            reference_row(alloc, config, run, standing, path, servant)
        }
        Command::Preset { path, servant } => preset_row(config, standing, path, servant),
        Command::Forward { .. } => Ok(good()),
        Command::Unforward { path } => Ok(unforward_row(config, settings, path)),
        Command::Shutdown => Ok(destroy_row(standing, &[], false)),
        Command::Bad { word } => Ok(refusal(Reason::BadWord { word: *word })),
    }
}
