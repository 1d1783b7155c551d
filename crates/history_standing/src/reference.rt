//! The reference of an object.
ghost use Rattle.std.specs.Prelude.{◌≡◌, IfOk};
ghost use Rattle.object_key.specs.Spelling.{TagsPersistent};
ghost use Rattle.history_standing.specs.Reference.{reference_of, reference_text};

use ior_text::{write_ior, write_profile};
use object_key::write_key;
use poa_base::{Bytes, Endpoint, Ior, Items, Key, WantMemory};
use std::alloc::Global;

/// The text of the reference of the object with this key and type id, whose server listens at this endpoint.
pub fn write_reference(
    alloc: Global,
    endpoint: &Endpoint,
    type_id: &[u8],
    key: &Key,
) -> Result<Bytes, WantMemory>
    requires { TagsPersistent key.now }
    ensures { IfOk result (λ text. text ≡ reference_text endpoint.now type_id.now key.now) }
{
    let reference = reference(alloc, endpoint, type_id, key)?;
    write_ior(alloc, &reference)
}

fn reference(
    alloc: Global,
    endpoint: &Endpoint,
    type_id: &[u8],
    key: &Key,
) -> Result<Ior, WantMemory>
    requires { TagsPersistent key.now }
    ensures { IfOk result (λ ior. ior ≡ reference_of endpoint.now type_id.now key.now) }
{
    let key = write_key(alloc, key)?;
    let profile = write_profile(alloc, endpoint, key.as_slice())?;
    let mut profiles = Items::new(alloc);
    profiles.push(profile)?;
    let type_id = Vec::from_slice(alloc, type_id)?;
    Ok(Ior {
        type_id: Bytes::from_vec(type_id),
        profiles,
    })
}
