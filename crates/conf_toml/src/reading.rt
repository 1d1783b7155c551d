//! The entries of a table, read one after another.
ghost use Rattle.std.specs.Prelude.{◌≡◌, ◌≤◌, ◌<◌, ◌++◌, ℕ, List, [], ◌∷◌, length, Result, IfOk};
ghost use Rattle.toml.specs.Data.{Data};
ghost use Rattle.toml.specs.View.{view, items_view};
ghost use Rattle.conf_fields.specs.Entries.{entries_of};
ghost use Rattle.conf_fields.specs.FieldGives.{FieldGives};
ghost use Rattle.conf_fields.specs.Numbers.{find_in, place_of};
ghost use Rattle.conf_fields.specs.declared.ConfFault.{ConfFault as Fault};
ghost use Rattle.poa_policy.specs.Entries.{EachAfter};

use conf_fields::{ConfFault, Numbers};
use poa_base::Items;
use std::alloc::Global;
use toml::Value;

/// What reads the entries of a table, one after another, and notes their names.
pub(crate) trait Reader {
    type Entry: Drop;

    /// The entry that is given, by those before it.
    ghost after: { Self → List Self.Entry → Data → Result Self.Entry Fault };

    /// What an entry keeps with those before it.
    ghost rule: { Self → List Self.Entry → Self.Entry → Type 0 };

    /// The names that are noted of these entries.
    ghost names: { Self → List Self.Entry → List (List ℕ) };

    /// Reads the entry at index `i`, and notes its name.
    fn next(
        &self,
        alloc: Global,
        i: u32,
        done: &[Self::Entry],
        value: &Value,
        numbers: &mut Numbers,
    ) -> Result<Self::Entry, ConfFault>
        requires index { i ≡ length done.now }
        requires few { i < 1024 }
        requires noted { find_in numbers.old ≡ place_of (names self.now done.now) }
        ensures value { FieldGives result (after self.now done.now (view value.now)) }
        ensures rule { IfOk result (rule self.now done.now) }
        ensures noted { IfOk result
            (λ entry. find_in numbers.new ≡ place_of (names self.now (done.now ++ entry ∷ []))) };
}

/// Reads all entries, and notes their names.
pub(crate) fn read<R: Reader>(
    alloc: Global,
    reader: &R,
    values: &[Value],
    numbers: &mut Numbers,
) -> Result<Items<R::Entry>, ConfFault>
    requires few { length values.now ≤ 1024 }
    requires start { find_in numbers.old ≡ place_of (R.names reader.now []) }
    ensures value { FieldGives result (entries_of (R.after reader.now) [] (items_view values.now)) }
    ensures noted { IfOk result
        (λ entries. find_in numbers.new ≡ place_of (R.names reader.now entries)) }
    ensures rule { IfOk result (EachAfter (R.rule reader.now) []) }
    ensures few { IfOk result (λ entries. length entries ≤ 1024) }
{
    let mut entries = Vec::new(alloc);
    for (i, value) in values.iter().enumerate() {
        let entry = reader.next(alloc, i as u32, entries.as_slice(), value, numbers)?;
        let Ok(()) = entries.push(entry) else {
            return Err(ConfFault::WantMemory);
        };
    }
    Ok(Items::from_vec(entries))
}
