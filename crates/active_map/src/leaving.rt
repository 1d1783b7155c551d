//! The numbers of the activations that are ending and in the map. There may be numbers of others, too.
ghost use Rattle.std.specs.Prelude.{◌≡◌, ◌==◌, ℕ, true, false, filter, find, is_some, option_copied, OnOk};
ghost use Rattle.std.specs.BTreeMap.{get, values};
ghost use Rattle.std.specs.List.{list_any};
ghost use Rattle.std.specs.BTreeSet.{contains};
ghost use Rattle.std.specs.Ordering.{nat_cmp};
ghost use Rattle.history_standing.specs.declared.activation.Activation.{Activation as Kept};
ghost use Rattle.history_standing.specs.Trees.{In};
ghost use Rattle.active_map.specs.Asked.{at_one, is_to_go};
ghost use Rattle.active_map.specs.Endings.{takes};

use crate::changing::is_to_leave;
use crate::ending::Ending;
use crate::rows::Rows;
use history_standing::Flight;
use poa_base::{Config, WantMemory};
use std::collections::BTreeSet;

/// Numbers, ascending.
pub type Leaving = BTreeSet<u32>;

/// A number is among them from now on.
pub fn enter(leaving: &mut Leaving, number: u32) -> Result<(), WantMemory>
    ensures wider { (n : ℕ) → In n leaving.old.keys → In n leaving.new.keys }
    ensures ok { OnOk result (In number leaving.new.keys) }
{
    leaving.insert(number)?;
    Ok(())
}

/// The numbers of those that a command ends are among them from now on. Some of them may be where it fails.
pub fn enter_ended(leaving: &mut Leaving, rows: &Rows, ending: Ending<'_>) -> Result<(), WantMemory>
    ensures wider { (n : ℕ) → In n leaving.old.keys → In n leaving.new.keys }
    ensures ok { OnOk result
        ((a : Kept) → In a (values rows.now) → takes ending.entry a ≡ true
        → In a.number leaving.new.keys) }
{
    for activation in rows.values() {
        if ending.takes(activation) {
            enter(leaving, activation.number)?;
        }
    }
    Ok(())
}

/// A number is among them no longer. Takes no memory.
pub fn strike(leaving: &mut Leaving, number: u32)
    ensures gone { contains nat_cmp leaving.new number ≡ false }
    ensures others { (n : ℕ) → In n leaving.old.keys → (n == number) ≡ false
        → In n leaving.new.keys }
{
    let _was = leaving.remove(&number);
}

/// The numbers that no row has are among them no longer. Takes no memory.
pub fn strike_forgotten(leaving: &mut Leaving, rows: &Rows)
    ensures { leaving.new.keys ≡ filter (λ n. is_some (get nat_cmp rows.now n)) leaving.old.keys }
{
    leaving.retain(|number| rows.contains_key(number));
}

/// Whether the activation of a number is to leave the map now.
fn goes_at(rows: &Rows, config: &Config, flights: &[Flight], number: u32) -> bool
    ensures { result ≡ at_one (is_to_go config.now flights.now) (get nat_cmp rows.now number) }
{
    match rows.get(&number) {
        Some(activation) => is_to_leave(config, flights, activation),
        None => false,
    }
}

/// Whether one of them is to leave the map now.
pub fn is_any_to_go(leaving: &Leaving, rows: &Rows, config: &Config, flights: &[Flight]) -> bool
    ensures { result ≡ list_any
        (λ n. at_one (is_to_go config.now flights.now) (get nat_cmp rows.now n)) leaving.now.keys }
{
    leaving
        .iter()
        .any(|number| goes_at(rows, config, flights, *number))
}

/// The first of them that is to leave the map now.
pub fn first_to_go<'a>(
    leaving: &'a Leaving,
    rows: &Rows,
    config: &Config,
    flights: &[Flight],
) -> Option<&'a u32>
    ensures { option_copied result
        ≡ find (λ n. at_one (is_to_go config.now flights.now) (get nat_cmp rows.now n))
        leaving.now.keys }
{
    leaving
        .iter()
        .find(|number| goes_at(rows, config, flights, **number))
}
