//! The places of a configuration.
ghost use Rattle.std.specs.Prelude.{◌≡◌, IfOk, string_bytes};
ghost use Rattle.conf_fields.specs.Place.{table_path as the_table_path, key_path as the_key_path};

use poa_base::Bytes;
use std::alloc::{AllocError, Global};

/// A table of a configuration, by the index of its entry.
#[derive(Clone, Copy, Drop)]
pub enum Place {
    /// The document itself.
    Top,
    Manager(u32),
    Servant(u32),
    Adapter(u32),
    /// The adapter's index, then the rule's.
    Rule(u32, u32),
    Object(u32),
    Forward(u32),
}

fn bytes_of(text: String) -> Bytes
    ensures { result ≡ string_bytes text }
{
    Bytes::from_vec(text.into_bytes())
}

/// The path of a table, as `adapter[0].rule[1]`.
#[tactic(auto, unfolding(crate::specs::Place::table_path))]
pub(crate) fn table_path(alloc: Global, at: Place) -> Result<Bytes, AllocError>
    ensures { IfOk result (λ path. path ≡ the_table_path at) }
{
    let path = match at {
        Place::Top => String::new(alloc),
        Place::Manager(i) => format!(in alloc; "manager[{i}]")?,
        Place::Servant(i) => format!(in alloc; "servant[{i}]")?,
        Place::Adapter(i) => format!(in alloc; "adapter[{i}]")?,
        Place::Rule(i, j) => format!(in alloc; "adapter[{i}].rule[{j}]")?,
        Place::Object(i) => format!(in alloc; "object[{i}]")?,
        Place::Forward(i) => format!(in alloc; "forward[{i}]")?,
    };
    Ok(bytes_of(path))
}

/// The path of a key, as `run` or `adapter[0].rule[1].id`.
#[tactic(auto, unfolding(crate::specs::Place::key_path))]
pub(crate) fn key_path(alloc: Global, at: Place, key: &str) -> Result<Bytes, AllocError>
    ensures { IfOk result (λ path. path ≡ the_key_path at key.now) }
{
    let path = match at {
        Place::Top => String::from_str(alloc, key)?,
        Place::Manager(i) => format!(in alloc; "manager[{i}].{key}")?,
        Place::Servant(i) => format!(in alloc; "servant[{i}].{key}")?,
        Place::Adapter(i) => format!(in alloc; "adapter[{i}].{key}")?,
        Place::Rule(i, j) => format!(in alloc; "adapter[{i}].rule[{j}].{key}")?,
        Place::Object(i) => format!(in alloc; "object[{i}].{key}")?,
        Place::Forward(i) => format!(in alloc; "forward[{i}].{key}")?,
    };
    Ok(bytes_of(path))
}
