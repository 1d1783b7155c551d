//! The keys and references of contexts.
ghost use Rattle.std.specs.Prelude.{◌≡◌, IfOk};
ghost use Rattle.naming_context.specs.Keys.{context_key as key_of, context_reference as reference_of_context, names_endpoint, names_path};

use crate::outcomes::CONTEXT_TYPE;
use ior_text::write_profile;
use object_key::write_key;
use poa_base::{Bytes, Endpoint, Ior, Items, Key, Name, Oid, Path, WantMemory};
use std::alloc::Global;

/// The port of the naming service.
const PORT: u16 = 2809;

/// The reference of a context.
pub(crate) fn context_reference(alloc: Global, number: u32) -> Result<Ior, WantMemory>
    ensures { IfOk result (λ ior. ior ≡ reference_of_context number) }
{
    let key = write_key(alloc, &context_key(alloc, number)?)?;
    let profile = write_profile(alloc, &endpoint(alloc)?, key.as_slice())?;
    let mut profiles = Items::new(alloc);
    profiles.push(profile)?;
    Ok(Ior {
        type_id: Bytes::from_vec(Vec::from_slice(alloc, CONTEXT_TYPE)?),
        profiles,
    })
}

// The key of a context.
fn context_key(alloc: Global, number: u32) -> Result<Key, WantMemory>
    ensures { IfOk result (λ key. key ≡ key_of number) }
{
    let oid = Vec::from_slice(alloc, &number.to_be_bytes())?;
    Ok(Key {
        stamp: None,
        path: path(alloc)?,
        oid: Oid::from_vec(oid).ok_or(WantMemory)?,
        tag: 0,
    })
}

// The path of the keys of contexts.
fn path(alloc: Global) -> Result<Path, WantMemory>
    ensures { IfOk result (λ path. path ≡ names_path) }
{
    let name = Name::from_vec(Vec::from_slice(alloc, b"names")?).ok_or(WantMemory)?;
    let mut names = Vec::new(alloc);
    names.push(name)?;
    Path::from_vec(names).ok_or(WantMemory)
}

// Where a context is said to be served.
fn endpoint(alloc: Global) -> Result<Endpoint, WantMemory>
    ensures { IfOk result (λ endpoint. endpoint ≡ names_endpoint) }
{
    Ok(Endpoint {
        host: Bytes::from_vec(Vec::from_slice(alloc, b"127.0.0.1")?),
        port: PORT,
    })
}
