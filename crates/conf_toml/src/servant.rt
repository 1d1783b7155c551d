//! The servants of a configuration.
ghost use Rattle.std.specs.Prelude.{◌≡◌, ◌≤◌, true, [], length, None, IfOk};
ghost use Rattle.toml.specs.View.{table_view};
ghost use Rattle.conf_fields.specs.FieldGives.{FieldGives, GivesView};
ghost use Rattle.text_words.specs.Name.{is_name};
ghost use Rattle.poa_policy.specs.Entries.{EachAfter};
ghost use Rattle.poa_policy.specs.Kept.{IsServant};
ghost use Rattle.conf_fields.specs.Numbers.{find_in, place_of};
ghost use Rattle.conf_toml.specs.Servants.{without_value as the_without_value, register_opening, opening as the_opening, servant_at as the_servant_at, servant_after, servant_names, servants_of};

use crate::reading::{Reader, read};
use conf_fields::{
    ConfFault, Numbers, Place, entries_at, integer_or, known_keys, name_at, no_numbers, none_of,
    not_twice, note, table_in, word_at,
};
use poa_base::{Items, Kind, ServantConf, State};
use std::alloc::Global;
use toml::{Table, Value};

fn without_value(alloc: Global, state: State, at: Place, table: &Table) -> Result<State, ConfFault>
    ensures { FieldGives result (the_without_value state at (table_view table.now)) }
{
    none_of(alloc, at, table, &["value"])?;
    Ok(state)
}

fn register(alloc: Global, at: Place, table: &Table) -> Result<State, ConfFault>
    ensures { FieldGives result (register_opening at (table_view table.now)) }
{
    let value = integer_or(alloc, at, table, "value", 0)?;
    Ok(State::Register(value))
}

/// The state in which a servant of this kind starts.
#[tactic(auto, unfolding(crate::specs::Servants::opening))]
fn opening(alloc: Global, kind: Kind, at: Place, table: &Table) -> Result<State, ConfFault>
    ensures { FieldGives result (the_opening kind at (table_view table.now)) }
{
    match kind {
        Kind::Register => register(alloc, at, table),
        Kind::Log => without_value(alloc, State::Book(Items::new(alloc)), at, table),
        Kind::Echo => without_value(alloc, State::Echo, at, table),
        Kind::Fault => without_value(alloc, State::Fault, at, table),
    }
}

/// A servant, and its name's text.
#[tactic(auto, unfolding(crate::specs::Servants::servant_at))]
fn servant_at<'a>(
    alloc: Global,
    at: Place,
    numbers: &Numbers,
    table: &'a Table,
) -> Result<(ServantConf, &'a str), ConfFault>
    ensures value { GivesView (λ p. p.0) result
        (the_servant_at at (find_in numbers.now) (table_view table.now)) }
    ensures name { IfOk result (λ p. p.1.now ≡ p.0.name) }
    ensures fresh { IfOk result (λ p. find_in numbers.now p.0.name ≡ None) }
    ensures named { IfOk result (λ p. is_name p.0.name ≡ true) }
{
    let (name, text) = name_at(alloc, at, table, "name")?;
    not_twice(alloc, numbers, at, "name", text)?;
    let kind = word_at(alloc, at, table, "kind")?;
    let state = opening(alloc, kind, at, table)?;
    known_keys(alloc, at, table, &["name", "kind", "value"])?;
    Ok((ServantConf { name, state }, text))
}

/// Reads servants.
#[derive(Drop)]
struct ServantRows;

impl Reader for ServantRows {
    type Entry = ServantConf;

    ghost after = { λ _. servant_after };

    ghost rule = { λ _. IsServant };

    ghost names = { λ _. servant_names };

    fn next(
        &self,
        alloc: Global,
        i: u32,
        _done: &[ServantConf],
        value: &Value,
        numbers: &mut Numbers,
    ) -> Result<ServantConf, ConfFault> {
        let at = Place::Servant(i);
        let table = table_in(alloc, at, value)?;
        let (servant, text) = servant_at(alloc, at, numbers, table)?;
        note(alloc, numbers, text, i)?;
        Ok(servant)
    }
}

/// The servants of the document, and the numbers of their names, from 0 on.
#[tactic(auto, unfolding(crate::specs::Servants::servants_of))]
pub fn servants(alloc: Global, top: &Table) -> Result<(Items<ServantConf>, Numbers), ConfFault>
    ensures value { GivesView (λ p. p.0) result (servants_of (table_view top.now)) }
    ensures numbers { IfOk result (λ p. find_in p.1 ≡ place_of (servant_names p.0)) }
    ensures kept { IfOk result (λ p. EachAfter IsServant [] p.0) }
    ensures few { IfOk result (λ p. length p.0 ≤ 1024) }
{
    let values = entries_at(alloc, Place::Top, top, "servant", 1024)?;
    let mut numbers = no_numbers(alloc);
    let servants = read(alloc, &ServantRows, values, &mut numbers)?;
    Ok((servants, numbers))
}
