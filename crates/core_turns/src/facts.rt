//! What stands about a request or a locate: the facts that the table of verdicts asks.
ghost use Rattle.std.specs.Prelude.{◌≡◌, ◌==◌, ◌∷◌, [], true, false, is_some, List, Some, None, if◌then◌else◌, option_and_then, option_copied, IfOk};
ghost use Rattle.poa_base.specs.declared.Entry.{Entry};
ghost use Rattle.poa_choose.specs.declared.KeyFact.TheVariants.{OtherRun, Persistent, Transient};
ghost use Rattle.history_standing.specs.Situations as situations;
ghost use Rattle.history_standing.specs.Keys as keys;
ghost use Rattle.history_standing.specs.Templates as templates;
ghost use Rattle.core_standing.specs.Seen.{seen};
ghost use Rattle.history_standing.specs.Walks.{place_met as place_is, walk as walk_along};
ghost use Rattle.core_settings.specs.Told.{SettingsAgree, SettingsTell};
ghost use Rattle.core_turns.specs.Said.{IsAsSaid};
ghost use Rattle.core_turns.specs.Templates.{IsTemplate};
ghost use Rattle.core_turns.specs.Ways.{IsWay};
ghost use Rattle.poa_base.specs.declared.Config.{Config as Conf};
ghost use Rattle.history_standing.specs.declared.found.Found.{Found as FoundIs};
ghost use Rattle.core_turns.specs.Told.{ArrivalTells};

use crate::commands::is_bad_for;
use crate::rules::located_among;
use crate::template::{Template, template_met, template_of};
use active_map::Activations;
use core_settings::{Settings, forward_of, manager_state, preset_of};
use core_standing::Standing;
use core_standing::keys::{key_in, path_met};
use history_standing::Found;
use history_standing::flights::{is_running, is_tried};
use history_standing::templates::is_other;
use history_standing::walks::{adapter_met, child_met, walk};
use object_key::KeyView;
use poa_base::{Bytes, Call, Config, Endpoint, ManagerState, Name, Stamp, WantMemory};
use poa_choose::{Facts, KeyFact, MapFact, WalkFact};
use poa_history::calls::{is_locate, target_of};
use std::alloc::Global;

/// What a key is to this run.
fn lifespan_fact(run: u32, stamp: Option<Stamp>) -> KeyFact
    ensures { result ≡ elim stamp [
      | None ↦ Persistent
      | Some
          stamp ↦ (if stamp.run == run then Transient else OtherRun)
    ] }
{
    match stamp {
        None => KeyFact::Persistent,
        Some(stamp) => {
            if stamp.run == run {
                KeyFact::Transient
            } else {
                KeyFact::OtherRun
            }
        }
    }
}

/// What the target of a call is as a key, where `key` is the one that it spells.
fn key_fact(run: u32, target: Option<&Bytes>, key: Option<&KeyView<'_>>) -> KeyFact
    ensures { option_copied key.entry ≡ option_and_then keys.key_of (option_copied target.entry)
        → result ≡ situations.key_fact run (option_copied target.entry) }
{
    if target.is_none() {
        return KeyFact::Absent;
    }
    match key {
        Some(key) => lifespan_fact(run, key.stamp()),
        None => KeyFact::Bad,
    }
}

fn walk_fact(found: Found) -> WalkFact
    ensures { result ≡ situations.walk_fact found }
{
    match found {
        Found::Live(_) => WalkFact::Found,
        Found::Dying(_) => WalkFact::Dying,
        Found::Missing { .. } => WalkFact::Missing,
    }
}

/// Whether the lifespan differs, or the number that a transient key gives.
fn differs(template: &Template<'_>, key: &KeyView<'_>, adapter: u32) -> bool
    ensures { (c : Conf) → IsTemplate (templates.template_or_root c key.now.path) template.now
        → result ≡ situations.differs c key.now adapter }
{
    let lasts = template.policies.lasts();
    match key.stamp() {
        None => !lasts,
        Some(stamp) => lasts || stamp.number != adapter,
    }
}

/// Whether the key is persistent and has another tag than the template of its path.
fn other_tag(template: &Template<'_>, key: &KeyView<'_>) -> bool
    ensures { (c : Conf) → IsTemplate (templates.template_or_root c key.now.path) template.now
        → result ≡ situations.other_tag c key.now }
{
    match key.stamp() {
        None => is_other(key.tag(), template.tag, template.old_keys),
        Some(_) => false,
    }
}

/// Whether its adapter has an adapter activator.
fn tries(template: &Template<'_>) -> bool
    ensures { result ≡ is_some template.now.children }
{
    template.children.is_some()
}

/// Whether its adapter has a servant manager.
fn has_rules(template: &Template<'_>) -> bool
    ensures { result ≡ elim template.now.rules.now [ [] ↦ false | _ ∷ _ ↦ true ] }
{
    !template.rules.is_empty()
}

/// What they are for an id.
fn slot_among(config: &Config, activations: &Activations, adapter: u32, oid: &[u8]) -> MapFact
    ensures { result ≡ situations.slot_of config.now activations.now.kept adapter oid.now }
{
    match activations.active_of(adapter, oid) {
        Some(activation) => MapFact::Active(activation.number),
        None => match activations.live_of(config, adapter, oid) {
            Some(activation) => MapFact::Busy(activation.number),
            None => MapFact::Free,
        },
    }
}

/// What the active object map has for an id.
pub fn slot_of(config: &Config, standing: &Standing, adapter: u32, oid: &[u8]) -> MapFact
    ensures { result ≡ situations.slot_of config.now (seen standing.now).activations adapter
        oid.now }
{
    slot_among(config, &standing.activations, adapter, oid)
}

/// Whether one of them is unfinished in the adapter.
fn is_any_changing(config: &Config, activations: &Activations, adapter: u32) -> bool
    ensures { result ≡ situations.is_changing config.now activations.now.kept adapter }
{
    if activations.is_still() {
        return false;
    }
    activations.is_changing(config, adapter)
}

/// Whether an incarnation or etherealization is unfinished in the adapter.
pub fn is_changing(config: &Config, standing: &Standing, adapter: u32) -> bool
    ensures { result ≡ situations.is_changing config.now (seen standing.now).activations adapter }
{
    is_any_changing(config, &standing.activations, adapter)
}

/// What is set, as the facts about a key ask it.
#[derive(Drop)]
struct AsSet {
    state: ManagerState,
    preset: Option<Name>,
    entry: Option<Endpoint>,
}

/// What is set: the state of a manager, the default servant of the path, and the endpoint of the longest path that leads to it.
fn as_set(
    config: &Config,
    settings: &Settings,
    manager: u32,
    path: &[Name],
) -> Result<AsSet, WantMemory>
    ensures { SettingsTell config.now settings.now
        (λ past. IfOk result (λ set. IsAsSaid config.now past manager path.now set)) }
{
    let preset = match preset_of(config, settings, path) {
        Some(name) => Some(name.clone()?),
        None => None,
    };
    let entry = match forward_of(config, settings, path) {
        Some(endpoint) => Some(endpoint.clone()?),
        None => None,
    };
    Ok(AsSet {
        state: manager_state(settings, manager),
        preset,
        entry,
    })
}

/// What a call asks, beside its key.
#[derive(Clone, Copy, Drop)]
struct Asked {
    locate: bool,
    crowded: bool,
    key: KeyFact,
}

/// The path of a key, what the walk along it meets, and the templates of the path and of the adapter met.
#[derive(Clone, Copy, Drop)]
struct Way<'a> {
    path: &'a [Name],
    found: Found,
    own: Template<'a>,
    met: Template<'a>,
}

/// The way along a path, of which the walk meets this.
fn way_of<'a>(config: &'a Config, path: &'a [Name], found: Found) -> Way<'a>
    ensures { IsWay config.now path.now found result }
{
    let own = template_of(config, path);
    Way {
        path,
        found,
        own,
        met: template_met(config, found, path, own),
    }
}

/// What stands about a key, given what the walk meets and what is set.
fn facts_met(
    config: &Config,
    run: u32,
    standing: &Standing,
    set: AsSet,
    asked: Asked,
    key: &KeyView<'_>,
    way: Way<'_>,
) -> Result<Facts, WantMemory>
    ensures { (past : List Entry) (found : FoundIs) → IsWay config.now key.now.path found way.entry
        → IsAsSaid config.now past (templates.manager_at config.now (place_is found key.now.path))
        key.now.path set
        → IfOk result (λ facts. facts ≡ situations.facts_met config.now run past (seen standing.now)
        asked.locate asked.crowded asked.key key.now found) }
{
    let oid = key.oid();
    let adapter = adapter_met(way.found);
    Ok(Facts {
        locate: asked.locate,
        crowded: asked.crowded,
        key: asked.key,
        walk: walk_fact(way.found),
        adapter,
        manager: way.met.manager,
        state: set.state,
        trial: is_tried(&standing.flights, child_met(way.found, way.path)),
        tries: tries(&way.met),
        entry: set.entry,
        differs: differs(&way.own, key, adapter),
        other_tag: other_tag(&way.own, key),
        policies: way.own.policies,
        running: is_running(&standing.flights, adapter),
        slot: slot_of(config, standing, adapter, oid),
        bad_id: is_bad_for(way.own.policies, run, standing.made, oid),
        preset: set.preset,
        rules: has_rules(&way.own),
        busy: is_changing(config, standing, adapter),
        next: standing.begun()?,
        located: located_among(config, way.own.rules, oid)?,
    })
}

/// What stands about a key of this path, given what the walk along it meets.
fn facts_at(
    config: &Config,
    run: u32,
    standing: &Standing,
    settings: &Settings,
    asked: Asked,
    key: &KeyView<'_>,
    path: &[Name],
    found: Found,
) -> Result<Facts, WantMemory>
    ensures { (past : List Entry) → path.now ≡ key.now.path
        → SettingsAgree config.now past settings.now
        → IfOk result (λ facts. facts ≡ situations.facts_met config.now run past (seen standing.now)
        asked.locate asked.crowded asked.key key.now found) }
{
    let way = way_of(config, path, found);
    let set = as_set(config, settings, way.met.manager, path)?;
    facts_met(config, run, standing, set, asked, key, way)
}

/// What stands about a key. Its path is that of the adapter that stands there, or else a copy.
fn facts_about(
    alloc: Global,
    config: &Config,
    run: u32,
    standing: &Standing,
    settings: &Settings,
    asked: Asked,
    key: &KeyView<'_>,
) -> Result<Facts, WantMemory>
    ensures { SettingsTell config.now settings.now (λ past. IfOk result (λ facts. facts
        ≡ situations.facts_met config.now run past (seen standing.now)
        asked.locate asked.crowded asked.key key.now
        (walk_along (seen standing.now).nodes key.now.path))) }
{
    let found = walk(&standing.nodes, key.path());
    match path_met(&standing.nodes, found, key.path()) {
        Some(path) => facts_at(config, run, standing, settings, asked, key, path, found),
        None => {
            let path = key.path().to_path(alloc)?;
            facts_at(
                config,
                run,
                standing,
                settings,
                asked,
                key,
                path.as_slice(),
                found,
            )
        }
    }
}

/// What stands about a request or a locate, where so many stood unadmitted when it arrived that it is
/// `crowded`.
pub fn facts_of(
    alloc: Global,
    config: &Config,
    run: u32,
    standing: &Standing,
    settings: &Settings,
    crowded: bool,
    call: &Call,
) -> Result<Facts, WantMemory>
    ensures { ArrivalTells config.now run (seen standing.now) settings.now crowded call.now
        (λ past r. IfOk result (λ facts. facts ≡ situations.facts_of config.now run past r)) }
{
    let key = key_in(Some(call));
    let asked = Asked {
        locate: is_locate(Some(call)),
        crowded,
        key: key_fact(run, target_of(Some(call)), key.as_ref()),
    };
    match key {
        Some(key) => facts_about(alloc, config, run, standing, settings, asked, &key),
        None => facts_about(
            alloc,
            config,
            run,
            standing,
            settings,
            asked,
            &KeyView::empty(),
        ),
    }
}
