//! The adapters of a configuration.
ghost use Rattle.std.specs.Prelude.{◌≡◌, ◌≤◌, true, false, [], length, None, IfErr, IfOk, IfSome, Option};
ghost use Rattle.toml.specs.View.{table_view};
ghost use Rattle.conf_fields.specs.declared.ConfFault.TheVariants as fault;
ghost use Rattle.conf_fields.specs.FieldGives.{FieldGives, GivesView};
ghost use Rattle.conf_fields.specs.Look.{only_known};
ghost use Rattle.conf_fields.specs.Numbers.{Find, IsNumber, find_in, place_of};
ghost use Rattle.poa_policy.specs.Adapters.{IsPreset};
ghost use Rattle.poa_policy.specs.Entries.{EachAfter};
ghost use Rattle.conf_toml.specs.FoundRows.{HasParent, IsFound, IsManagerNumber, IsRead, IsReadAfter};
ghost use Rattle.text_words.specs.Path.{path_text};
ghost use Rattle.conf_toml.specs.Adapters.{adapter_keys as the_adapter_keys, parent_text as the_parent_text, parent_boots as the_parent_boots, boots_at as the_boots_at, boot_at as the_boot_at, manager_number as the_manager_number, preset_given as the_preset_given, preset_at as the_preset_at, root_at as the_root_at, template_at as the_template_at, entry_at as the_entry_at, adapter_at as the_adapter_at, adapter_after, adapter_paths, adapters_of};

use crate::policies::policies_at;
use crate::reading::{Reader, read};
use crate::rule::rules_at;
use crate::tag::{old_keys_at, tag_at};
use conf_fields::{
    ConfFault, Numbers, Place, entries_at, find, flag_or, has, known_keys, no_numbers, none_of,
    not_twice, note, number_named, only_if, path_at, table_in, word_maybe,
};
use poa_base::{AdapterConf, Items, Path, PolicySet, Templates};
use poa_policy::defaults;
use std::alloc::Global;
use toml::{Table, Value};

/// What an entry is read with: the numbers of managers, servants and earlier paths, and the earlier adapters.
#[derive(Clone, Copy)]
struct Earlier<'a> {
    managers: &'a Numbers,
    servants: &'a Numbers,
    paths: &'a Numbers,
    adapters: &'a [AdapterConf],
}

#[tactic(auto, unfolding(crate::specs::Adapters::adapter_keys))]
fn adapter_keys(alloc: Global, at: Place, table: &Table) -> Result<(), ConfFault>
    ensures { FieldGives result (only_known the_adapter_keys at (table_view table.now)) }
{
    let keys = [
        "path", "policies", "manager", "boot", "children", "default", "tag", "old_keys", "rule",
    ];
    known_keys(alloc, at, table, &keys)
}

/// The text of a path before its last `/`.
fn parent_text(text: &str) -> &str
    ensures { result.now ≡ the_parent_text text.now }
{
    match text.rfind('/') {
        Some(end) => &text[..end],
        None => "",
    }
}

fn boots_at(adapters: &[AdapterConf], number: Option<u32>) -> bool
    ensures { result ≡ the_boots_at adapters.now number }
{
    let Some(k) = number else {
        return false;
    };
    match adapters.get(k as usize) {
        Some(adapter) => adapter.boot,
        None => false,
    }
}

/// Whether the parent is the root, or an earlier entry that is created at the start.
fn parent_boots(paths: &Numbers, adapters: &[AdapterConf], parent: &str) -> bool
    ensures { result ≡ the_parent_boots (find_in paths.now) adapters.now parent.now }
{
    if parent.is_empty() {
        return true;
    }
    boots_at(adapters, find(paths, parent))
}

#[tactic(auto, unfolding(crate::specs::Adapters::boot_at))]
fn boot_at(
    alloc: Global,
    at: Place,
    paths: &Numbers,
    adapters: &[AdapterConf],
    text: &str,
    table: &Table,
) -> Result<bool, ConfFault>
    ensures value { FieldGives result
        (the_boot_at at (find_in paths.now) adapters.now text.now (table_view table.now)) }
    ensures parent { IfOk result
        (λ boot. boot ≡ true
        → the_parent_boots (find_in paths.now) adapters.now (the_parent_text text.now) ≡ true) }
{
    let boot = flag_or(alloc, at, table, "boot", false)?;
    let rooted = parent_boots(paths, adapters, parent_text(text));
    only_if(alloc, at, "boot", !boot || rooted)?;
    Ok(boot)
}

#[tactic(auto, unfolding(crate::specs::Adapters::manager_number))]
fn manager_number(
    alloc: Global,
    at: Place,
    managers: &Numbers,
    table: &Table,
) -> Result<u32, ConfFault>
    ensures value { FieldGives result
        (the_manager_number at (find_in managers.now) (table_view table.now)) }
    ensures found { IfOk result (λ n. IsManagerNumber (find_in managers.now) n) }
{
    if has(table, "manager") {
        number_named(alloc, managers, at, table, "manager")
    } else {
        Ok(0)
    }
}

fn preset_given(
    alloc: Global,
    at: Place,
    servants: &Numbers,
    policies: &PolicySet,
    table: &Table,
) -> Result<Option<u32>, ConfFault>
    ensures value { FieldGives result
        (the_preset_given at (find_in servants.now) policies.now (table_view table.now)) }
    ensures found { IfOk result
        (λ preset. IfSome preset (IsPreset (IsNumber (find_in servants.now)) policies.now)) }
{
    only_if(alloc, at, "default", policies.uses_default_servant())?;
    let servant = number_named(alloc, servants, at, table, "default")?;
    Ok(Some(servant))
}

#[tactic(auto, unfolding(crate::specs::Adapters::preset_at))]
fn preset_at(
    alloc: Global,
    at: Place,
    servants: &Numbers,
    policies: &PolicySet,
    table: &Table,
) -> Result<Option<u32>, ConfFault>
    ensures value { FieldGives result
        (the_preset_at at (find_in servants.now) policies.now (table_view table.now)) }
    ensures found { IfOk result
        (λ preset. IfSome preset (IsPreset (IsNumber (find_in servants.now)) policies.now)) }
{
    if has(table, "default") {
        preset_given(alloc, at, servants, policies, table)
    } else {
        Ok(None)
    }
}

/// The entry for the root.
#[tactic(auto, unfolding(crate::specs::Adapters::root_at))]
fn root_at(alloc: Global, at: Place, table: &Table) -> Result<AdapterConf, ConfFault>
    ensures value { FieldGives result (the_root_at at (table_view table.now)) }
    ensures path { IfOk result (λ a. a.path ≡ []) }
    ensures boot { IfOk result (λ a. a.boot ≡ false) }
    ensures found { (managers servants : Find) → IfOk result (λ a. IsFound managers servants a) }
{
    none_of(alloc, at, table, &["policies", "manager", "boot"])?;
    let children = word_maybe(alloc, at, table, "children")?;
    none_of(alloc, at, table, &["default", "tag", "old_keys", "rule"])?;
    adapter_keys(alloc, at, table)?;
    Ok(AdapterConf {
        path: Path::root(alloc),
        policies: defaults(),
        manager: 0,
        boot: false,
        children,
        preset: None,
        rules: Items::new(alloc),
        tag: 0,
        old_keys: true,
    })
}

/// An entry below the root.
#[tactic(auto, unfolding(crate::specs::Adapters::template_at))]
fn template_at(
    alloc: Global,
    i: u32,
    path: Path,
    text: &str,
    earlier: &Earlier,
    table: &Table,
) -> Result<AdapterConf, ConfFault>
    requires { text.now ≡ path_text path }
    ensures value { FieldGives result
        (the_template_at i path (find_in earlier.now.managers.now)
        (find_in earlier.now.servants.now)
        (find_in earlier.now.paths.now) earlier.now.adapters.now (table_view table.now)) }
    ensures path { IfOk result (λ a. a.path ≡ path) }
    ensures boot { IfOk result
        (λ a. a.boot ≡ true → the_parent_boots (find_in earlier.now.paths.now)
        earlier.now.adapters.now (the_parent_text text.now) ≡ true) }
    ensures found { IfOk result
        (λ a. IsFound (find_in earlier.now.managers.now) (find_in earlier.now.servants.now) a) }
{
    let at = Place::Adapter(i);
    let policies = policies_at(alloc, at, &path, table)?;
    let manager = manager_number(alloc, at, earlier.managers, table)?;
    let boot = boot_at(alloc, at, earlier.paths, earlier.adapters, text, table)?;
    let children = word_maybe(alloc, at, table, "children")?;
    let preset = preset_at(alloc, at, earlier.servants, &policies, table)?;
    let tag = tag_at(alloc, at, &policies, table)?;
    let old_keys = old_keys_at(alloc, at, &policies, table)?;
    let rules = rules_at(alloc, i, earlier.servants, &policies, table)?;
    adapter_keys(alloc, at, table)?;
    Ok(AdapterConf {
        path,
        policies,
        manager,
        boot,
        children,
        preset,
        rules,
        tag,
        old_keys,
    })
}

fn entry_at(
    alloc: Global,
    i: u32,
    path: Path,
    text: &str,
    earlier: &Earlier,
    table: &Table,
) -> Result<AdapterConf, ConfFault>
    requires { text.now ≡ path_text path }
    ensures value { FieldGives result
        (the_entry_at path i (find_in earlier.now.managers.now) (find_in earlier.now.servants.now)
        (find_in earlier.now.paths.now) earlier.now.adapters.now (table_view table.now)) }
    ensures path { IfOk result (λ a. a.path ≡ path) }
    ensures boot { IfOk result
        (λ a. a.boot ≡ true → HasParent (find_in earlier.now.paths.now) earlier.now.adapters.now
        path) }
    ensures found { IfOk result
        (λ a. IsFound (find_in earlier.now.managers.now) (find_in earlier.now.servants.now) a) }
{
    if path.as_slice().is_empty() {
        root_at(alloc, Place::Adapter(i), table)
    } else {
        template_at(alloc, i, path, text, earlier, table)
    }
}

/// An adapter, and its path's text.
#[tactic(auto, unfolding(crate::specs::Adapters::adapter_at))]
fn adapter_at<'a>(
    alloc: Global,
    i: u32,
    earlier: &Earlier,
    table: &'a Table,
) -> Result<(AdapterConf, &'a str), ConfFault>
    ensures value { GivesView (λ p. p.0) result
        (the_adapter_at i (find_in earlier.now.managers.now) (find_in earlier.now.servants.now)
        (find_in earlier.now.paths.now) earlier.now.adapters.now (table_view table.now)) }
    ensures name { IfOk result (λ p. p.1.now ≡ path_text p.0.path) }
    ensures read { IfOk result
        (λ p. IsRead (find_in earlier.now.managers.now) (find_in earlier.now.servants.now)
        (find_in earlier.now.paths.now) earlier.now.adapters.now p.0) }
{
    let at = Place::Adapter(i);
    let (path, text) = path_at(alloc, at, table, "path")?;
    not_twice(alloc, earlier.paths, at, "path", text)?;
    let adapter = entry_at(alloc, i, path, text, earlier, table)?;
    Ok((adapter, text))
}

/// Reads adapters, by the numbers of managers and servants.
#[derive(Drop)]
struct AdapterRows<'a> {
    managers: &'a Numbers,
    servants: &'a Numbers,
}

impl<'a> Reader for AdapterRows<'a> {
    type Entry = AdapterConf;

    ghost after = { λ r. adapter_after (find_in r.managers.now) (find_in r.servants.now) };

    ghost rule = { λ r. IsReadAfter (find_in r.managers.now) (find_in r.servants.now) };

    ghost names = { λ _. adapter_paths };

    fn next(
        &self,
        alloc: Global,
        i: u32,
        done: &[AdapterConf],
        value: &Value,
        paths: &mut Numbers,
    ) -> Result<AdapterConf, ConfFault> {
        let table = table_in(alloc, Place::Adapter(i), value)?;
        let (adapter, text) = {
            let earlier = Earlier {
                managers: self.managers,
                servants: self.servants,
                paths,
                adapters: done,
            };
            adapter_at(alloc, i, &earlier, table)?
        };
        note(alloc, paths, text, i)?;
        Ok(adapter)
    }
}

/// The same adapters, to be found by their paths.
fn templates(entries: Items<AdapterConf>) -> Result<Templates, ConfFault>
    ensures same { IfOk result (λ adapters. adapters ≡ entries) }
    ensures memory { IfErr result (λ e. e ≡ fault.WantMemory) }
{
    Ok(Templates::from_vec(entries.into_vec())?)
}

/// The adapters of the document, and the places of their paths, by the numbers of managers and servants.
#[tactic(auto, unfolding(crate::specs::Adapters::adapters_of))]
pub fn adapters(
    alloc: Global,
    top: &Table,
    managers: &Numbers,
    servants: &Numbers,
) -> Result<(Templates, Numbers), ConfFault>
    ensures value { GivesView (λ p. p.0) result
        (adapters_of (find_in managers.now) (find_in servants.now) (table_view top.now)) }
    ensures paths { IfOk result (λ p. find_in p.1 ≡ place_of (adapter_paths p.0)) }
    ensures read { IfOk result
        (λ p. EachAfter (IsReadAfter (find_in managers.now) (find_in servants.now)) [] p.0) }
    ensures few { IfOk result (λ p. length p.0 ≤ 1024) }
{
    let values = entries_at(alloc, Place::Top, top, "adapter", 1024)?;
    let mut paths = no_numbers(alloc);
    let reader = AdapterRows { managers, servants };
    let entries = read(alloc, &reader, values, &mut paths)?;
    Ok((templates(entries)?, paths))
}
