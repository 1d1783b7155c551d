//! The rows of a table of activations, changed in place. Takes no memory.
ghost use Rattle.std.specs.Prelude.{◌≡◌, ◌+◌, Some, None, filter, find, length, if◌then◌else◌};
ghost use Rattle.std.specs.BTreeMap.{IsOrdered, get, values};
ghost use Rattle.std.specs.List.{filter_map};
ghost use Rattle.std.specs.List.Sorted.{IsStrictlySortedBy};
ghost use Rattle.std.specs.Map.{keys_of};
ghost use Rattle.std.specs.Option.{option_and_then, option_copied};
ghost use Rattle.std.specs.Ordering.{nat_cmp};
ghost use Rattle.history_standing.specs.Ends as ends;
ghost use Rattle.history_standing.specs.Standings as stands;
ghost use Rattle.history_standing.specs.Standings.{Standing as Stood};
ghost use Rattle.active_map.specs.Endings.{ended};
ghost use Rattle.active_map.specs.Live.{is_live, live};
ghost use Rattle.active_map.specs.Tables as tables;

use crate::activation::is_active;
use crate::by_id::{Index, remove};
use crate::changing::let_out;
use crate::ending::Ending;
use crate::over::is_over;
use history_standing::{Activation, Flight};
use poa_base::Config;
use std::collections::BTreeMap;

/// Activations by their numbers.
pub type Rows = BTreeMap<u32, Activation>;

/// Whether the activation is on its way in or out.
pub fn is_moving(activation: &Activation) -> bool
    ensures { result ≡ tables.is_moving activation.now }
{
    !is_active(activation) || activation.out
}

/// As one that moves counts.
pub fn moves(activation: &Activation) -> usize
    ensures { result ≡ tables.weight activation.now }
{
    if is_moving(activation) { 1 } else { 0 }
}

/// How many of them are on their way in or out.
pub fn count_moving(rows: &Rows) -> usize
    ensures { result ≡ length (filter tables.is_moving (values rows.now)) }
{
    rows.values()
        .filter(|activation| is_moving(activation))
        .count()
}

/// The activation of a number, where it is active.
fn active_at(rows: &Rows, number: u32) -> Option<&Activation>
    ensures { option_copied result
        ≡ option_and_then (λ a. if stands.is_active a then Some a else None)
        (get nat_cmp rows.now number) }
{
    match rows.get(&number) {
        Some(activation) => {
            if is_active(activation) {
                Some(activation)
            } else {
                None
            }
        }
        None => None,
    }
}

/// The first of some numbers whose activation is active.
pub fn first_active<'a>(rows: &'a Rows, numbers: &[u32]) -> Option<&'a Activation>
    ensures { option_copied result
        ≡ find stands.is_active (filter_map (get nat_cmp rows.now) numbers.now) }
{
    for number in numbers {
        if let Some(activation) = active_at(rows, *number) {
            return Some(activation);
        }
    }
    None
}

/// The activation of a number, where it isn't over.
fn live_at<'a>(rows: &'a Rows, config: &Config, number: u32) -> Option<&'a Activation>
    ensures { option_copied result
        ≡ option_and_then (λ a. if is_live config.now a then Some a else None)
        (get nat_cmp rows.now number) }
{
    match rows.get(&number) {
        Some(activation) => {
            if is_over(config, activation) {
                None
            } else {
                Some(activation)
            }
        }
        None => None,
    }
}

/// The first of some numbers whose activation isn't over.
pub fn first_live<'a>(rows: &'a Rows, config: &Config, numbers: &[u32]) -> Option<&'a Activation>
    ensures { option_copied result
        ≡ find (is_live config.now) (filter_map (get nat_cmp rows.now) numbers.now) }
{
    for number in numbers {
        if let Some(activation) = live_at(rows, config, *number) {
            return Some(activation);
        }
    }
    None
}

/// Those of the activations that a command ends are ending.
pub fn end_all(rows: &mut Rows, ending: Ending<'_>)
    ensures { rows.new.entries ≡ tables.with_each (ended ending.entry) rows.old.entries }
{
    rows.retain(|_, activation| {
        ending.end(activation);
        true
    });
}

/// The activations that are to leave the map do.
pub fn let_all_out(rows: &mut Rows, config: &Config, flights: &[Flight])
    ensures { (s : Stood) → s.flights ≡ flights.now
        → rows.new.entries ≡ tables.with_each (ends.let_out config.now s) rows.old.entries }
{
    rows.retain(|_, activation| {
        let_out(config, flights, activation);
        true
    });
}

/// Keeps those that aren't over, and tells how many go.
pub fn keep_live(rows: &mut Rows, config: &Config) -> usize
    ensures live { rows.new.entries ≡ filter (λ e. is_live config.now e.1) rows.old.entries }
    ensures over { result + length rows.new.entries ≡ length rows.old.entries }
    ensures ordered { IsOrdered nat_cmp rows.new }
{
    let all = rows.len();
    rows.retain(|_, activation| !is_over(config, activation));
    all - rows.len()
}

/// The numbers of those that are over are taken out of the index.
pub fn forget_ids(index: &mut Index, rows: &Rows, config: &Config)
    requires keyed { tables.IsKeyed rows.now.entries }
    requires ordered { IsStrictlySortedBy nat_cmp (keys_of rows.now.entries) }
    requires indexed { tables.IsIndexed index.old (values rows.now) }
    ensures { tables.IsIndexed index.new (live config.now (values rows.now)) }
{
    for activation in rows.values() {
        if is_over(config, activation) {
            remove(
                index,
                activation.adapter,
                activation.oid.as_slice(),
                activation.number,
            );
        }
    }
}
