//! The values of keys.
ghost use Rattle.std.specs.Prelude.{◌≡◌, ◌≤◌, option_map, true, Some, IfOk, IfSome, OnOk};
ghost use Rattle.toml.specs.Data.{get_member, as_bool as bool_of, as_integer as integer_of};
ghost use Rattle.toml.specs.View.{view, table_view};
ghost use Rattle.conf_fields.specs.FieldGives.{FieldGives};
ghost use Rattle.conf_fields.specs.Look.{or_field, wanted, with_default, maybe, only_if as the_only_if, number_within, number_in as the_number_in, text_in};

use crate::fault::ConfFault;
use crate::faulty::wrong;
use crate::place::Place;
use crate::word::Word;
use std::alloc::Global;
use toml::{Table, Value};

/// What stands at the key.
pub fn member_at<'a>(table: &'a Table, key: &str) -> Option<&'a Value>
    ensures { option_map (λ v. view v.now) result ≡ get_member key.now (table_view table.now) }
{
    table.get(key)
}

/// The value, or Field at the key.
pub fn or_wrong<T>(alloc: Global, at: Place, key: &str, value: Option<T>) -> Result<T, ConfFault>
    ensures value { FieldGives result (or_field at key.now value) }
    ensures same { IfOk result (λ x. value ≡ Some x) }
{
    match value {
        Some(x) => Ok(x),
        None => wrong(alloc, at, key),
    }
}

/// Field at the key where the condition doesn't hold.
pub fn only_if(alloc: Global, at: Place, key: &str, holds: bool) -> Result<(), ConfFault>
    ensures value { FieldGives result (the_only_if holds at key.now) }
    ensures held { OnOk result (holds ≡ true) }
{
    if holds { Ok(()) } else { wrong(alloc, at, key) }
}

fn within(n: i64, least: u32, most: u32) -> Option<u32>
    ensures value { result ≡ number_within least most n }
    ensures bound { IfSome result (λ k. (least ≤ k) × (k ≤ most)) }
{
    if n < i64::from(least) || i64::from(most) < n {
        None
    } else {
        Some(n as u32)
    }
}

fn number_in(value: &Value, least: u32, most: u32) -> Option<u32>
    ensures value { result ≡ the_number_in least most (view value.now) }
    ensures bound { IfSome result (λ k. (least ≤ k) × (k ≤ most)) }
{
    match value.as_integer() {
        Some(n) => within(n, least, most),
        None => None,
    }
}

/// A number from `least` to `most`, that has to be there.
pub fn number_at(
    alloc: Global,
    at: Place,
    table: &Table,
    key: &str,
    least: u32,
    most: u32,
) -> Result<u32, ConfFault>
    ensures value { FieldGives result (wanted (the_number_in least most) at key.now (table_view table.now)) }
    ensures bound { IfOk result (λ k. (least ≤ k) × (k ≤ most)) }
{
    match member_at(table, key) {
        Some(value) => or_wrong(alloc, at, key, number_in(value, least, most)),
        None => wrong(alloc, at, key),
    }
}

/// A number up to `most`, or the default.
pub fn number_or(
    alloc: Global,
    at: Place,
    table: &Table,
    key: &str,
    most: u32,
    default: u32,
) -> Result<u32, ConfFault>
    requires { default ≤ most }
    ensures value { FieldGives result (with_default (the_number_in 0 most) default at key.now (table_view table.now)) }
    ensures bound { IfOk result (λ k. k ≤ most) }
{
    match member_at(table, key) {
        Some(value) => or_wrong(alloc, at, key, number_in(value, 0, most)),
        None => Ok(default),
    }
}

/// A port that has to be there.
pub fn port_at(alloc: Global, at: Place, table: &Table, key: &str) -> Result<u16, ConfFault>
    ensures value { FieldGives result (wanted (the_number_in 1 65535) at key.now (table_view table.now)) }
    ensures bound { IfOk result (λ k. 1 ≤ k) }
{
    let port = number_at(alloc, at, table, key, 1, 65535)?;
    Ok(port as u16)
}

/// A port, or the default, which is one.
pub fn port_or(
    alloc: Global,
    at: Place,
    table: &Table,
    key: &str,
    default: u16,
) -> Result<u16, ConfFault>
    requires { 1 ≤ default }
    ensures value { FieldGives result (with_default (the_number_in 1 65535) default at key.now (table_view table.now)) }
    ensures bound { IfOk result (λ k. 1 ≤ k) }
{
    match member_at(table, key) {
        Some(value) => {
            let port = or_wrong(alloc, at, key, number_in(value, 1, 65535))?;
            Ok(port as u16)
        }
        None => Ok(default),
    }
}

/// A 64-bit number, or the default.
pub fn integer_or(
    alloc: Global,
    at: Place,
    table: &Table,
    key: &str,
    default: i64,
) -> Result<i64, ConfFault>
    ensures { FieldGives result (with_default integer_of default at key.now (table_view table.now)) }
{
    match member_at(table, key) {
        Some(value) => or_wrong(alloc, at, key, value.as_integer()),
        None => Ok(default),
    }
}

/// True or false, or the default.
pub fn flag_or(
    alloc: Global,
    at: Place,
    table: &Table,
    key: &str,
    default: bool,
) -> Result<bool, ConfFault>
    ensures { FieldGives result (with_default bool_of default at key.now (table_view table.now)) }
{
    match member_at(table, key) {
        Some(value) => or_wrong(alloc, at, key, value.as_bool()),
        None => Ok(default),
    }
}

/// The meaning of the word that a value is.
pub fn word_in<W: Word>(value: &Value) -> Option<W>
    ensures { result ≡ text_in W.meaning (view value.now) }
{
    match value.as_str() {
        Some(word) => W::of_word(word),
        None => None,
    }
}

/// The meaning of a word that has to be there.
pub fn word_at<W: Word>(alloc: Global, at: Place, table: &Table, key: &str) -> Result<W, ConfFault>
    ensures { FieldGives result (wanted (text_in W.meaning) at key.now (table_view table.now)) }
{
    match member_at(table, key) {
        Some(value) => or_wrong(alloc, at, key, word_in(value)),
        None => wrong(alloc, at, key),
    }
}

/// The meaning of a word, or the default.
pub fn word_or<W: Word>(
    alloc: Global,
    at: Place,
    table: &Table,
    key: &str,
    default: W,
) -> Result<W, ConfFault>
    ensures { FieldGives result (with_default (text_in W.meaning) default at key.now (table_view table.now)) }
{
    match member_at(table, key) {
        Some(value) => or_wrong(alloc, at, key, word_in(value)),
        None => Ok(default),
    }
}

/// The meaning of a word, if there is one.
pub fn word_maybe<W: Word>(
    alloc: Global,
    at: Place,
    table: &Table,
    key: &str,
) -> Result<Option<W>, ConfFault>
    ensures { FieldGives result (maybe (text_in W.meaning) at key.now (table_view table.now)) }
{
    match member_at(table, key) {
        Some(value) => Ok(Some(or_wrong(alloc, at, key, word_in(value))?)),
        None => Ok(None),
    }
}
