//! The tag of an adapter's persistent references.
ghost use Rattle.toml.specs.View.{table_view};
ghost use Rattle.conf_fields.specs.FieldGives.{FieldGives};
ghost use Rattle.conf_toml.specs.Tags.{tag_at as the_tag_at, old_keys_given as the_old_keys_given, old_keys_at as the_old_keys_at};

use conf_fields::{ConfFault, Place, flag_or, has, number_or, only_if};
use poa_base::PolicySet;
use std::alloc::Global;
use toml::Table;

/// The tag; 0 where there is none.
#[tactic(auto, unfolding(crate::specs::Tags::tag_at))]
pub(crate) fn tag_at(
    alloc: Global,
    at: Place,
    policies: &PolicySet,
    table: &Table,
) -> Result<u16, ConfFault>
    ensures { FieldGives result (the_tag_at at policies.now (table_view table.now)) }
{
    let tag = number_or(alloc, at, table, "tag", 65535, 0)?;
    only_if(alloc, at, "tag", tag == 0 || policies.lasts())?;
    Ok(tag as u16)
}

fn old_keys_given(
    alloc: Global,
    at: Place,
    policies: &PolicySet,
    table: &Table,
) -> Result<bool, ConfFault>
    ensures { FieldGives result (the_old_keys_given at policies.now (table_view table.now)) }
{
    only_if(alloc, at, "old_keys", policies.lasts())?;
    let old_keys = flag_or(alloc, at, table, "old_keys", true)?;
    Ok(old_keys)
}

/// Whether references without a tag are served.
#[tactic(auto, unfolding(crate::specs::Tags::old_keys_at))]
pub(crate) fn old_keys_at(
    alloc: Global,
    at: Place,
    policies: &PolicySet,
    table: &Table,
) -> Result<bool, ConfFault>
    ensures { FieldGives result (the_old_keys_at at policies.now (table_view table.now)) }
{
    if has(table, "old_keys") {
        old_keys_given(alloc, at, policies, table)
    } else {
        Ok(true)
    }
}
