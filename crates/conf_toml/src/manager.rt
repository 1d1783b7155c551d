//! The managers of a configuration.
ghost use Rattle.std.specs.Prelude.{◌≡◌, ◌≤◌, true, [], length, None, IfOk, IfErr};
ghost use Rattle.toml.specs.View.{table_view};
ghost use Rattle.conf_fields.specs.FieldGives.{GivesView};
ghost use Rattle.text_words.specs.Name.{is_name};
ghost use Rattle.poa_policy.specs.Entries.{EachAfter};
ghost use Rattle.poa_policy.specs.Kept.{IsManager};
ghost use Rattle.conf_fields.specs.Numbers.{find_in, place_of};
ghost use Rattle.conf_fields.specs.declared.ConfFault.TheVariants as fault;
ghost use Rattle.conf_toml.specs.Managers.{manager_at as the_manager_at, manager_after, manager_names, managers_of};

use crate::reading::{Reader, read};
use conf_fields::{
    ConfFault, Numbers, Place, entries_at, known_keys, name_at, no_numbers, not_twice, note,
    table_in, word_or,
};
use poa_base::{Items, ManagerConf, ManagerState};
use std::alloc::Global;
use toml::{Table, Value};

/// A manager, and its name's text.
#[tactic(auto, unfolding(crate::specs::Managers::manager_at))]
fn manager_at<'a>(
    alloc: Global,
    at: Place,
    numbers: &Numbers,
    table: &'a Table,
) -> Result<(ManagerConf, &'a str), ConfFault>
    ensures value { GivesView (λ p. p.0) result
        (the_manager_at at (find_in numbers.now) (table_view table.now)) }
    ensures name { IfOk result (λ p. p.1.now ≡ p.0.name) }
    ensures fresh { IfOk result (λ p. find_in numbers.now p.0.name ≡ None) }
    ensures named { IfOk result (λ p. is_name p.0.name ≡ true) }
{
    let (name, text) = name_at(alloc, at, table, "name")?;
    not_twice(alloc, numbers, at, "name", text)?;
    let start = word_or(alloc, at, table, "start", ManagerState::Holding)?;
    known_keys(alloc, at, table, &["name", "start"])?;
    Ok((ManagerConf { name, start }, text))
}

/// Reads managers. The first has the number 1, since `root` is 0.
#[derive(Drop)]
struct ManagerRows;

impl Reader for ManagerRows {
    type Entry = ManagerConf;

    ghost after = { λ _. manager_after };

    ghost rule = { λ _. IsManager };

    ghost names = { λ _. manager_names };

    fn next(
        &self,
        alloc: Global,
        i: u32,
        _done: &[ManagerConf],
        value: &Value,
        numbers: &mut Numbers,
    ) -> Result<ManagerConf, ConfFault> {
        let at = Place::Manager(i);
        let table = table_in(alloc, at, value)?;
        let (manager, text) = manager_at(alloc, at, numbers, table)?;
        note(alloc, numbers, text, i + 1)?;
        Ok(manager)
    }
}

fn root_alone(alloc: Global) -> Result<Numbers, ConfFault>
    ensures value { IfOk result (λ numbers. find_in numbers ≡ place_of (manager_names [])) }
    ensures memory { IfErr result (λ e. e ≡ fault.WantMemory) }
{
    let mut numbers = no_numbers(alloc);
    note(alloc, &mut numbers, "root", 0)?;
    Ok(numbers)
}

/// The managers of the document, and the numbers of their names: 0 is `root`.
#[tactic(auto, unfolding(crate::specs::Managers::managers_of))]
pub fn managers(alloc: Global, top: &Table) -> Result<(Items<ManagerConf>, Numbers), ConfFault>
    ensures value { GivesView (λ p. p.0) result (managers_of (table_view top.now)) }
    ensures numbers { IfOk result (λ p. find_in p.1 ≡ place_of (manager_names p.0)) }
    ensures kept { IfOk result (λ p. EachAfter IsManager [] p.0) }
    ensures few { IfOk result (λ p. length p.0 ≤ 1024) }
{
    let values = entries_at(alloc, Place::Top, top, "manager", 1024)?;
    let mut numbers = root_alone(alloc)?;
    let managers = read(alloc, &ManagerRows, values, &mut numbers)?;
    Ok((managers, numbers))
}
