//! The object keys that profiles and references tell.
ghost use Rattle.std.specs.Prelude.{IfOk};
ghost use Rattle.ior_text.specs.Key.{TellsKey, HasKey, IsKeyOr};

use crate::body::read_body;
use poa_base::{Bytes, Ior, Profile, WantMemory};
use std::alloc::Global;

/// The object key of a profile; none where its tag isn't 0 or its data can't be read.
pub fn read_key(alloc: Global, profile: &Profile) -> Result<Option<Bytes>, WantMemory>
    ensures { IfOk result (λ found. IsKeyOr (TellsKey profile.now) found) }
{
    let Some(body) = read_body(alloc, profile)? else {
        return Ok(None);
    };
    Ok(Some(body.key))
}

/// The object key of a reference's profile at an index; none where there is no such profile, or it tells no
/// key.
pub fn key_of(alloc: Global, ior: &Ior, index: u32) -> Result<Option<Bytes>, WantMemory>
    ensures { IfOk result (λ found. IsKeyOr (HasKey ior.now index) found) }
{
    let Some(profile) = ior.profiles.as_slice().get(index as usize) else {
        return Ok(None);
    };
    let found = read_key(alloc, profile)?;
    Ok(found)
}
