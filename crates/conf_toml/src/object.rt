//! The objects of a configuration.
ghost use Rattle.std.specs.Prelude.{◌≡◌, ◌≤◌, ◌⊎◌, true, false, [], length, string_bytes, is_none, None, IfOk, IfErr, IfSome, OnOk};
ghost use Rattle.std.specs.Option.{option_copied};
ghost use Rattle.toml.specs.View.{view, table_view, items_view};
ghost use Rattle.text_words.specs.Path.{path_text};
ghost use Rattle.conf_fields.specs.Entries.{entries_of};
ghost use Rattle.conf_fields.specs.FieldGives.{FieldGives, GivesView};
ghost use Rattle.conf_fields.specs.Numbers.{find_in, noted, seen_of};
ghost use Rattle.poa_base.specs.declared.limits.TheConstants.{OBJECTS};
ghost use Rattle.poa_base.specs.Policies.{is_system_id as the_system_id, is_multiple_id as the_multiple_id};
ghost use Rattle.poa_policy.specs.Entries.{EachAfter};
ghost use Rattle.conf_toml.specs.Found.{HomeFound, IsFit, IsFoundHome, IsRead, IsReadAfter};
ghost use Rattle.conf_toml.specs.Notes.{noted_id};
ghost use Rattle.conf_fields.specs.declared.ConfFault.TheVariants as fault;
ghost use Rattle.conf_fields.specs.declared.Place.TheVariants as place;
ghost use Rattle.conf_toml.specs.Objects.{home_in as the_home_in, home_below as the_home_below, home_of as the_home_of, no_id as the_no_id, some_id as the_some_id, id_at as the_id_at, id_text as the_id_text, servant_text as the_servant_text, new_id as the_new_id, new_servant as the_new_servant, ids_of, taken_of, object_at as the_object_at, object_in, object_after, objects_of};

use conf_fields::{
    ConfFault, Numbers, Place, entries_at, find, id_at, known_keys, no_numbers, no_such, none_of,
    not_twice, note, number_named, only_if, or_missing, path_at, table_in,
};
use poa_base::limits::OBJECTS;
use poa_base::{AdapterConf, Items, ObjectConf, Oid, Path, PolicySet};
use poa_policy::defaults;
use std::alloc::{AllocError, Global};
use toml::{Table, Value};

/// What the tables before say: the adapters with the places of their paths, and the servants' numbers.
#[derive(Clone, Copy)]
pub(crate) struct Homes<'a> {
    pub paths: &'a Numbers,
    pub adapters: &'a [AdapterConf],
    pub servants: &'a Numbers,
}

fn home_in(alloc: Global, at: Place, adapter: Option<&AdapterConf>) -> Result<PolicySet, ConfFault>
    ensures value { FieldGives result (the_home_in at (option_copied adapter.entry)) }
    ensures fit { IfOk result (IsFit (option_copied adapter.entry)) }
{
    let Some(adapter) = adapter else {
        return no_such(alloc, at, "adapter");
    };
    let fit = adapter.boot && adapter.policies.retains();
    only_if(alloc, at, "adapter", fit)?;
    Ok(adapter.policies)
}

#[tactic(auto, unfolding(crate::specs::Objects::home_below))]
fn home_below(alloc: Global, at: Place, homes: &Homes, text: &str) -> Result<PolicySet, ConfFault>
    ensures value { FieldGives result
        (the_home_below at (find_in homes.now.paths.now) homes.now.adapters.now text.now) }
    ensures found { IfOk result
        (IsFoundHome (find_in homes.now.paths.now) homes.now.adapters.now text.now) }
{
    let k = or_missing(alloc, at, "adapter", find(homes.paths, text))?;
    home_in(alloc, at, homes.adapters.get(k as usize))
}

/// The policies of the adapter with this path.
fn home_of(
    alloc: Global,
    at: Place,
    homes: &Homes,
    path: &Path,
    text: &str,
) -> Result<PolicySet, ConfFault>
    requires { text.now ≡ path_text path.now }
    ensures value { FieldGives result
        (the_home_of at (find_in homes.now.paths.now) homes.now.adapters.now path.now) }
    ensures found { IfOk result
        (HomeFound (find_in homes.now.paths.now) homes.now.adapters.now path.now) }
{
    if path.as_slice().is_empty() {
        Ok(defaults())
    } else {
        home_below(alloc, at, homes, text)
    }
}

fn no_id(alloc: Global, at: Place, table: &Table) -> Result<Option<Oid>, ConfFault>
    ensures value { FieldGives result (the_no_id at (table_view table.now)) }
    ensures none { IfOk result (λ oid. is_none oid ≡ true) }
{
    none_of(alloc, at, table, &["id"])?;
    Ok(None)
}

fn some_id(alloc: Global, at: Place, table: &Table) -> Result<Option<Oid>, ConfFault>
    ensures value { FieldGives result (the_some_id at (table_view table.now)) }
    ensures some { IfOk result (λ oid. is_none oid ≡ false) }
{
    let id = id_at(alloc, at, table, "id")?;
    Ok(Some(id))
}

/// The object's id: none exactly under SYSTEM_ID.
#[tactic(auto, unfolding(crate::specs::Objects::id_at))]
fn own_id(
    alloc: Global,
    at: Place,
    policies: &PolicySet,
    table: &Table,
) -> Result<Option<Oid>, ConfFault>
    ensures value { FieldGives result (the_id_at at policies.now (table_view table.now)) }
    ensures exact { IfOk result (λ oid. is_none oid ≡ the_system_id policies.now.assignment) }
{
    if policies.makes_ids() {
        no_id(alloc, at, table)
    } else {
        some_id(alloc, at, table)
    }
}

#[tactic(auto, unfolding(crate::specs::Objects::id_text))]
fn id_text(alloc: Global, path: &str, id: &Oid) -> Result<String, AllocError>
    ensures { IfOk result (λ text. string_bytes text ≡ the_id_text path.now id.now) }
{
    let hex = hex::encode(alloc, id.as_slice())?;
    format!(in alloc; "{path} {hex}")
}

#[tactic(auto, unfolding(crate::specs::Objects::servant_text))]
fn servant_text(alloc: Global, path: &str, servant: u32) -> Result<String, AllocError>
    ensures { IfOk result (λ text. string_bytes text ≡ the_servant_text path.now servant) }
{
    format!(in alloc; "{path} {servant}")
}

fn new_id(
    alloc: Global,
    at: Place,
    ids: &Numbers,
    path: &str,
    oid: &Option<Oid>,
) -> Result<(), ConfFault>
    ensures value { FieldGives result (the_new_id at (find_in ids.now) path.now oid.now) }
    ensures new { OnOk result
        (IfSome oid.now (λ id. find_in ids.now (the_id_text path.now id) ≡ None)) }
{
    let Some(id) = oid else {
        return Ok(());
    };
    let text = id_text(alloc, path, id)?;
    not_twice(alloc, ids, at, "id", text.as_str())
}

fn new_servant(
    alloc: Global,
    at: Place,
    taken: &Numbers,
    policies: &PolicySet,
    path: &str,
    servant: u32,
) -> Result<(), ConfFault>
    ensures value { FieldGives result
        (the_new_servant at (find_in taken.now) policies.now path.now servant) }
    ensures alone { OnOk result
        ((the_multiple_id policies.now.uniqueness ≡ true)
        ⊎ (find_in taken.now (the_servant_text path.now servant) ≡ None)) }
{
    if policies.is_multiple() {
        return Ok(());
    }
    let text = servant_text(alloc, path, servant)?;
    not_twice(alloc, taken, at, "servant", text.as_str())
}

/// An object, and its path's text.
#[tactic(auto, unfolding(crate::specs::Objects::object_at))]
fn object_at<'a>(
    alloc: Global,
    at: Place,
    homes: &Homes,
    ids: &Numbers,
    taken: &Numbers,
    table: &'a Table,
) -> Result<(ObjectConf, &'a str), ConfFault>
    ensures value { GivesView (λ p. p.0) result
        (the_object_at at (find_in homes.now.paths.now) homes.now.adapters.now
        (find_in homes.now.servants.now) (find_in ids.now)
        (find_in taken.now) (table_view table.now)) }
    ensures text { IfOk result (λ p. p.1.now ≡ path_text p.0.adapter) }
    ensures read { IfOk result
        (λ p. IsRead (find_in homes.now.paths.now) homes.now.adapters.now
        (find_in homes.now.servants.now) (find_in ids.now)
        (find_in taken.now) p.0) }
{
    let (adapter, text) = path_at(alloc, at, table, "adapter")?;
    let policies = home_of(alloc, at, homes, &adapter, text)?;
    let oid = own_id(alloc, at, &policies, table)?;
    new_id(alloc, at, ids, text, &oid)?;
    let servant = number_named(alloc, homes.servants, at, table, "servant")?;
    new_servant(alloc, at, taken, &policies, text, servant)?;
    known_keys(alloc, at, table, &["adapter", "id", "servant"])?;
    Ok((
        ObjectConf {
            adapter,
            oid,
            servant,
        },
        text,
    ))
}

fn note_id(alloc: Global, ids: &mut Numbers, path: &str, oid: &Option<Oid>) -> Result<(), ConfFault>
    ensures noted { OnOk result (find_in ids.new ≡ noted_id path.now oid.now (find_in ids.old)) }
    ensures memory { IfErr result (λ e. e ≡ fault.WantMemory) }
{
    let Some(id) = oid else {
        return Ok(());
    };
    let text = id_text(alloc, path, id)?;
    note(alloc, ids, text.as_str(), 0)
}

fn note_servant(
    alloc: Global,
    taken: &mut Numbers,
    path: &str,
    servant: u32,
) -> Result<(), ConfFault>
    ensures noted { OnOk result
        (find_in taken.new ≡ noted (the_servant_text path.now servant) 0 (find_in taken.old)) }
    ensures memory { IfErr result (λ e. e ≡ fault.WantMemory) }
{
    let text = servant_text(alloc, path, servant)?;
    note(alloc, taken, text.as_str(), 0)
}

/// Reads the entry at index `i`, and notes its id and its servant.
fn next_object(
    alloc: Global,
    i: u32,
    value: &Value,
    homes: &Homes,
    ids: &mut Numbers,
    taken: &mut Numbers,
) -> Result<ObjectConf, ConfFault>
    ensures entry { FieldGives result
        (object_in (place.Object i) (find_in homes.now.paths.now) homes.now.adapters.now
        (find_in homes.now.servants.now) (find_in ids.old)
        (find_in taken.old) (view value.now)) }
    ensures read { IfOk result
        (IsRead (find_in homes.now.paths.now) homes.now.adapters.now
        (find_in homes.now.servants.now) (find_in ids.old)
        (find_in taken.old)) }
    ensures ids { IfOk result
        (λ o. find_in ids.new ≡ noted_id (path_text o.adapter) o.oid (find_in ids.old)) }
    ensures taken { IfOk result
        (λ o. find_in taken.new
        ≡ noted (the_servant_text (path_text o.adapter) o.servant) 0 (find_in taken.old)) }
{
    let at = Place::Object(i);
    let table = table_in(alloc, at, value)?;
    let (object, text) = object_at(alloc, at, homes, ids, taken, table)?;
    note_id(alloc, ids, text, &object.oid)?;
    note_servant(alloc, taken, text, object.servant)?;
    Ok(object)
}

fn entries(
    alloc: Global,
    values: &[Value],
    homes: &Homes,
    ids: &mut Numbers,
    taken: &mut Numbers,
) -> Result<Items<ObjectConf>, ConfFault>
    requires few { length values.now ≤ OBJECTS }
    requires ids { find_in ids.old ≡ seen_of (ids_of []) }
    requires taken { find_in taken.old ≡ seen_of (taken_of []) }
    ensures value { FieldGives result
        (entries_of (object_after (find_in homes.now.paths.now) homes.now.adapters.now
        (find_in homes.now.servants.now)) []
        (items_view values.now)) }
    ensures read { IfOk result
        (λ objects. EachAfter
        (IsReadAfter (find_in homes.now.paths.now) homes.now.adapters.now
        (find_in homes.now.servants.now))
        [] objects) }
    ensures few { IfOk result (λ objects. length objects ≤ OBJECTS) }
{
    let mut objects = Vec::new(alloc);
    for (i, value) in values.iter().enumerate() {
        let object = next_object(alloc, i as u32, value, homes, ids, taken)?;
        let Ok(()) = objects.push(object) else {
            return Err(ConfFault::WantMemory);
        };
    }
    Ok(Items::from_vec(objects))
}

/// The objects of the document.
#[tactic(auto, unfolding(crate::specs::Objects::objects_of))]
pub(crate) fn objects(
    alloc: Global,
    top: &Table,
    homes: &Homes,
) -> Result<Items<ObjectConf>, ConfFault>
    ensures value { FieldGives result
        (objects_of (find_in homes.now.paths.now) homes.now.adapters.now
        (find_in homes.now.servants.now) (table_view top.now)) }
    ensures read { IfOk result
        (λ objects. EachAfter
        (IsReadAfter (find_in homes.now.paths.now) homes.now.adapters.now
        (find_in homes.now.servants.now))
        [] objects) }
    ensures few { IfOk result (λ objects. length objects ≤ OBJECTS) }
{
    let values = entries_at(alloc, Place::Top, top, "object", OBJECTS)?;
    let mut ids = no_numbers(alloc);
    let mut taken = no_numbers(alloc);
    entries(alloc, values, homes, &mut ids, &mut taken)
}
