//! Names turned into numbers.
ghost use Rattle.std.specs.Prelude.{◌≡◌, [], Some, None, Err, OnOk, IfErr, IfOk};
ghost use Rattle.toml.specs.View.{table_view};
ghost use Rattle.conf_fields.specs.declared.fault.ConfFault.TheVariants as fault;
ghost use Rattle.conf_fields.specs.FieldGives.{FieldGives};
ghost use Rattle.conf_fields.specs.Numbers.{find_in, noted, place_of, seen_of, not_twice as the_not_twice, number_named as the_number_named, or_no_such, IsNumber};

use crate::fault::ConfFault;
use crate::faulty::{no_such, twice};
use crate::names::name_at;
use crate::place::Place;
use std::alloc::Global;
use std::collections::BTreeMap;
use toml::Table;

/// The numbers of names.
pub type Numbers = BTreeMap<String, u32>;

/// No names yet.
#[tactic(auto, unfolding(crate::specs::Numbers::find_in))]
pub fn no_numbers(alloc: Global) -> Numbers
    ensures places { find_in result ≡ place_of [] }
    ensures seen { find_in result ≡ seen_of [] }
{
    BTreeMap::new(alloc)
}

/// The number of a name.
#[tactic(auto, unfolding(crate::specs::Numbers::find_in))]
pub fn find(numbers: &Numbers, name: &str) -> Option<u32>
    ensures { result ≡ find_in numbers.now name.now }
{
    numbers.get(name).copied()
}

/// Notes a name with its number.
pub fn note(alloc: Global, numbers: &mut Numbers, name: &str, number: u32) -> Result<(), ConfFault>
    ensures noted { OnOk result (find_in numbers.new ≡ noted name.now number (find_in numbers.old)) }
    ensures memory { IfErr result (λ e. e ≡ fault.WantMemory) }
{
    let key = String::from_str(alloc, name)?;
    let Ok(_) = numbers.insert(key, number) else {
        return Err(ConfFault::WantMemory);
    };
    Ok(())
}

/// Twice at the key where the name was noted.
pub fn not_twice(
    alloc: Global,
    numbers: &Numbers,
    at: Place,
    key: &str,
    name: &str,
) -> Result<(), ConfFault>
    ensures value { FieldGives result (the_not_twice (find_in numbers.now) at key.now name.now) }
    ensures fresh { OnOk result (find_in numbers.now name.now ≡ None) }
{
    match find(numbers, name) {
        None => Ok(()),
        Some(_) => twice(alloc, at, key),
    }
}

/// The number, or NoSuch at the key.
pub fn or_missing(alloc: Global, at: Place, key: &str, found: Option<u32>) -> Result<u32, ConfFault>
    ensures value { FieldGives result (or_no_such at key.now found) }
    ensures found { IfOk result (λ n. found ≡ Some n) }
{
    match found {
        Some(number) => Ok(number),
        None => no_such(alloc, at, key),
    }
}

/// The number of the name at a key; NoSuch where it wasn't noted.
#[tactic(auto, unfolding(crate::specs::Numbers::number_named))]
pub fn number_named(
    alloc: Global,
    numbers: &Numbers,
    at: Place,
    table: &Table,
    key: &str,
) -> Result<u32, ConfFault>
    ensures value { FieldGives result (the_number_named (find_in numbers.now) at key.now (table_view table.now)) }
    ensures found { IfOk result (λ n. IsNumber (find_in numbers.now) n) }
{
    let (_, name) = name_at(alloc, at, table, key)?;
    or_missing(alloc, at, key, find(numbers, name))
}
