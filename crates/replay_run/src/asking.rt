//! The requests that a script asks.
ghost use Rattle.std.specs.Prelude.{◌≡◌, IfOk};
ghost use Rattle.giop_msg.specs.Ask.{request_bytes};
ghost use Rattle.object_key.specs.Spelling.{key_spelling};
ghost use Rattle.replay_run.specs.Asking.{ask_for, head_for, key_for, is_transient as is_transient_at, number_of as number_at, stamp_for};

use giop_msg::write_request;
use history_standing::templates::{has_template, policies_at};
use object_key::write_key;
use poa_base::{Ask, Bytes, Config, Datum, Head, Key, Name, Oid, Path, Stamp, WantMemory};
use poa_core::Core;
use std::alloc::Global;

/// The number of no adapter.
const NO_ADAPTER: u32 = 4_294_967_295;

/// The bytes of the request that a line `ask` writes to the object of this key.
pub(crate) fn request(
    alloc: Global,
    id: u32,
    key: Bytes,
    operation: &Name,
    argument: &Option<Datum>,
) -> Result<Bytes, WantMemory>
    ensures { IfOk result
        (λ bytes. bytes ≡ request_bytes (ask_for id key operation.now argument.now)) }
{
    let ask = Ask {
        head: head(id),
        key,
        operation: operation_of(alloc, operation)?,
        argument: copied(argument)?,
    };
    let bytes = write_request(alloc, &ask)?;
    Ok(bytes)
}

fn operation_of(alloc: Global, name: &Name) -> Result<Bytes, WantMemory>
    ensures { IfOk result (λ bytes. bytes ≡ name.now) }
{
    let bytes = Vec::from_slice(alloc, name.as_slice())?;
    Ok(Bytes::from_vec(bytes))
}

fn copied(argument: &Option<Datum>) -> Result<Option<Datum>, WantMemory>
    ensures { IfOk result (λ copy. copy ≡ argument.now) }
{
    match argument {
        Some(datum) => {
            let copy = datum.clone()?;
            Ok(Some(copy))
        }
        None => Ok(None),
    }
}

/// The spelling of an object's key.
pub(crate) fn key_bytes(
    alloc: Global,
    core: &Core,
    path: &Path,
    oid: &Oid,
) -> Result<Bytes, WantMemory>
    ensures { IfOk result (λ bytes. bytes ≡ key_spelling (key_for core.now path.now oid.now)) }
{
    let key = key(core, path, oid)?;
    let bytes = write_key(alloc, &key)?;
    Ok(bytes)
}

// A request that asks a reply.
fn head(id: u32) -> Head
    ensures { result ≡ head_for id }
{
    Head {
        id,
        minor: 2,
        little: true,
        flags: 3,
        locate: false,
    }
}

// The key of an object, without a tag.
fn key(core: &Core, path: &Path, oid: &Oid) -> Result<Key, WantMemory>
    ensures { IfOk result (λ key. key ≡ key_for core.now path.now oid.now) }
{
    Ok(Key {
        stamp: stamp(core, path),
        path: path.clone()?,
        oid: oid.clone()?,
        tag: 0,
    })
}

// The stamp of a transient key.
fn stamp(core: &Core, path: &Path) -> Option<Stamp>
    ensures { result ≡ stamp_for core.now path.now }
{
    if is_transient(core.config(), path) {
        Some(Stamp {
            run: core.run(),
            number: number(core, path),
        })
    } else {
        None
    }
}

// Whether the adapters of a path are transient.
fn is_transient(config: &Config, path: &Path) -> bool
    ensures { result ≡ is_transient_at config.now path.now }
{
    let names = path.as_slice();
    has_template(config, names) && !policies_at(config, names).lasts()
}

// The number of the adapter that stands at a path.
fn number(core: &Core, path: &Path) -> u32
    ensures { result ≡ number_at core.now path.now }
{
    core.adapter_number(path).unwrap_or(NO_ADAPTER)
}
