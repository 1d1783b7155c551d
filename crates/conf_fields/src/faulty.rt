//! The faults at a key.
ghost use Rattle.std.specs.Prelude.{◌≡◌, length, nat_le, ℕ, List, Err};
ghost use Rattle.conf_fields.specs.declared.fault.ConfFault.TheVariants as fault;
ghost use Rattle.conf_fields.specs.FieldGives.{FieldGives};
ghost use Rattle.conf_fields.specs.Place.{key_path as the_key_path, table_path as the_table_path};

use crate::fault::ConfFault;
use crate::place::{Place, key_path, table_path};
use std::alloc::Global;

/// Field at a key.
pub fn wrong<T>(alloc: Global, at: Place, key: &str) -> Result<T, ConfFault>
    ensures { FieldGives result (Err (fault.Field (the_key_path at key.now))) }
{
    let path = key_path(alloc, at, key)?;
    Err(ConfFault::Field { path })
}

/// Field at a table of the wrong type.
pub(crate) fn wrong_table<T>(alloc: Global, at: Place) -> Result<T, ConfFault>
    ensures { FieldGives result (Err (fault.Field (the_table_path at))) }
{
    let path = table_path(alloc, at)?;
    Err(ConfFault::Field { path })
}

/// Twice at a key.
pub fn twice<T>(alloc: Global, at: Place, key: &str) -> Result<T, ConfFault>
    ensures { FieldGives result (Err (fault.Twice (the_key_path at key.now))) }
{
    let path = key_path(alloc, at, key)?;
    Err(ConfFault::Twice { path })
}

/// NoSuch at a key.
pub fn no_such<T>(alloc: Global, at: Place, key: &str) -> Result<T, ConfFault>
    ensures { FieldGives result (Err (fault.NoSuch (the_key_path at key.now))) }
{
    let path = key_path(alloc, at, key)?;
    Err(ConfFault::NoSuch { path })
}

/// Limit at a key.
pub fn limited<T>(alloc: Global, at: Place, key: &str) -> Result<T, ConfFault>
    ensures { FieldGives result (Err (fault.Limit (the_key_path at key.now))) }
{
    let what = key_path(alloc, at, key)?;
    Err(ConfFault::Limit { what })
}
