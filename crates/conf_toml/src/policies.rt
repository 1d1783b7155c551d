//! The policies of an adapter.
ghost use Rattle.std.specs.Prelude.{◌≡◌, [], IfOk};
ghost use Rattle.toml.specs.View.{table_view, items_view};
ghost use Rattle.poa_policy.specs.Settled.{settled as the_settled};
ghost use Rattle.conf_fields.specs.Entries.{entries_of};
ghost use Rattle.conf_fields.specs.FieldGives.{FieldGives};
ghost use Rattle.poa_policy.specs.Adapters.{AreTogether};
ghost use Rattle.conf_toml.specs.Policies.{policy_after, or_policy as the_or_policy, policies_at as the_policies_at};

use conf_fields::{ConfFault, Place, items_at, or_wrong, word_in};
use poa_base::{Items, Path, Policy, PolicySet, TryClone};
use poa_policy::settle;
use std::alloc::Global;
use toml::{Table, Value};

fn entries(alloc: Global, at: Place, values: &[Value]) -> Result<Items<Policy>, ConfFault>
    ensures { FieldGives result (entries_of (policy_after at) [] (items_view values.now)) }
{
    let mut list = Vec::new(alloc);
    for value in values {
        let policy = or_wrong(alloc, at, "policies", word_in(value))?;
        let Ok(()) = list.push(policy) else {
            return Err(ConfFault::WantMemory);
        };
    }
    Ok(Items::from_vec(list))
}

fn settled_at(path: &Path, list: &[Policy]) -> Result<PolicySet, ConfFault>
    ensures value { FieldGives result (the_or_policy path.now (the_settled list.now)) }
    ensures together { IfOk result AreTogether }
{
    match settle(list) {
        Ok(set) => Ok(set),
        Err(bad) => Err(ConfFault::Policy {
            adapter: path.try_clone()?,
            index: bad.index,
        }),
    }
}

/// The policy set of the adapter with this path.
#[tactic(auto, unfolding(crate::specs::Policies::policies_at))]
pub(crate) fn policies_at(
    alloc: Global,
    at: Place,
    path: &Path,
    table: &Table,
) -> Result<PolicySet, ConfFault>
    ensures value { FieldGives result (the_policies_at at path.now (table_view table.now)) }
    ensures together { IfOk result AreTogether }
{
    let values = items_at(alloc, at, table, "policies")?;
    let list = entries(alloc, at, values)?;
    settled_at(path, list.as_slice())
}
