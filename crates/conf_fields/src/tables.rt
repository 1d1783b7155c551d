//! Tables, their arrays, and the keys that they may have.
ghost use Rattle.std.specs.Prelude.{◌≡◌, ◌≤◌, map, length, Option, Some, None, IfOk, option_map, is_some};
ghost use Rattle.toml.specs.Data.{get_member};
ghost use Rattle.toml.specs.View.{view, table_view, items_view, array_view};
ghost use Rattle.conf_fields.specs.FieldGives.{FieldGives, GivesView};
ghost use Rattle.conf_fields.specs.Look.{is_among, unknown_key, only_known, none_of as the_none_of, table_in as the_table_in, items_at as the_items_at, at_most as the_at_most, entries_at as the_entries_at};

use crate::fault::ConfFault;
use crate::faulty::{limited, wrong, wrong_table};
use crate::lookup::member_at;
use crate::place::Place;
use std::alloc::Global;
use toml::{Table, Value};

/// Whether the key is one of the known ones.
#[tactic(auto, unfolding(crate::specs::Look::is_among))]
fn is_known(key: &str, known: &[&str]) -> bool
    ensures { result ≡ is_among key.now (map (λ k. k.now) known.now) }
{
    known.contains(&key)
}

/// The least key, in byte order, that is none of the known ones.
fn unknown_in<'a>(table: &'a Table, known: &[&str]) -> Option<&'a str>
    ensures { option_map (λ k. k.now) result ≡ unknown_key (map (λ k. k.now) known.now) (table_view table.now) }
{
    for key in table.keys() {
        if !is_known(key.as_str(), known) {
            return Some(key.as_str());
        }
    }
    None
}

/// Field at the least key, in byte order, that is none of the known ones.
pub fn known_keys(alloc: Global, at: Place, table: &Table, known: &[&str]) -> Result<(), ConfFault>
    ensures { FieldGives result (only_known (map (λ k. k.now) known.now) at (table_view table.now)) }
{
    match unknown_in(table, known) {
        None => Ok(()),
        Some(key) => wrong(alloc, at, key),
    }
}

/// Whether the table has the key.
pub fn has(table: &Table, key: &str) -> bool
    ensures { result ≡ is_some (get_member key.now (table_view table.now)) }
{
    member_at(table, key).is_some()
}

/// Field at the first of these keys that is there.
pub fn none_of(alloc: Global, at: Place, table: &Table, keys: &[&str]) -> Result<(), ConfFault>
    ensures { FieldGives result (the_none_of (map (λ k. k.now) keys.now) at (table_view table.now)) }
{
    for key in keys {
        if has(table, key) {
            return wrong(alloc, at, key);
        }
    }
    Ok(())
}

/// An entry of an array, which has to be a table.
pub fn table_in(alloc: Global, at: Place, value: &Value) -> Result<&Table, ConfFault>
    ensures { GivesView (λ t. table_view t.now) result (the_table_in at (view value.now)) }
{
    match value.as_table() {
        Some(table) => Ok(table),
        None => wrong_table(alloc, at),
    }
}

/// The entries of an array; none where the key is left out.
pub fn items_at<'a>(
    alloc: Global,
    at: Place,
    table: &'a Table,
    key: &str,
) -> Result<&'a [Value], ConfFault>
    ensures { GivesView (λ vs. items_view vs.now) result (the_items_at at key.now (table_view table.now)) }
{
    let Some(value) = member_at(table, key) else {
        return Ok(&[]);
    };
    match value.as_array() {
        Some(array) => Ok(array.as_slice()),
        None => wrong(alloc, at, key),
    }
}

/// Limit at the key where there are more entries than `most`.
#[tactic(auto, using(crate::proofs::Entries::count_of_items))]
pub fn at_most<'a>(
    alloc: Global,
    at: Place,
    key: &str,
    entries: &'a [Value],
    most: usize,
) -> Result<&'a [Value], ConfFault>
    ensures value { GivesView (λ vs. items_view vs.now) result (the_at_most most at key.now (items_view entries.now)) }
    ensures within { IfOk result (λ vs. length vs.now ≤ most) }
{
    if entries.len() > most {
        return limited(alloc, at, key);
    }
    Ok(entries)
}

/// The entries of an array, at most `most`; none where the key is left out.
pub fn entries_at<'a>(
    alloc: Global,
    at: Place,
    table: &'a Table,
    key: &str,
    most: usize,
) -> Result<&'a [Value], ConfFault>
    ensures value { GivesView (λ vs. items_view vs.now) result (the_entries_at most at key.now (table_view table.now)) }
    ensures within { IfOk result (λ vs. length vs.now ≤ most) }
{
    let entries = items_at(alloc, at, table, key)?;
    at_most(alloc, at, key, entries, most)
}
