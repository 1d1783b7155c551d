//! The reference of an object.
ghost use Rattle.std.specs.Prelude.{◌≡◌, IfOk};
ghost use Rattle.history_standing.specs.References as references;

use history_standing::templates::{policies_at, tag_at};
use history_standing::write_reference;
use poa_base::{Bytes, Config, Endpoint, Key, Name, Oid, Path, Stamp, WantMemory};
use servant_kinds::type_id;
use std::alloc::Global;

/// The stamp of an object's key; none where the key is persistent.
fn stamp_for(config: &Config, run: u32, number: u32, path: &[Name]) -> Option<Stamp>
    ensures { result ≡ references.stamp_for config.now run number path.now }
{
    if policies_at(config, path).lasts() {
        None
    } else {
        Some(Stamp { run, number })
    }
}

/// The tag of an object's key; 0 where the key is transient, or its template has none.
fn tag_for(config: &Config, path: &[Name]) -> u16
    ensures { result ≡ references.tag_for config.now path.now }
{
    if policies_at(config, path).lasts() {
        tag_at(config, path)
    } else {
        0
    }
}

/// The key of an object.
fn key_for(
    config: &Config,
    run: u32,
    number: u32,
    path: &Path,
    oid: &Oid,
) -> Result<Key, WantMemory>
    ensures { IfOk result (λ key. key ≡ references.key_for config.now run number path.now oid.now) }
{
    let names = path.as_slice();
    Ok(Key {
        stamp: stamp_for(config, run, number, names),
        path: path.clone()?,
        oid: oid.clone()?,
        tag: tag_for(config, names),
    })
}

/// The repository id of a configured servant's interface.
fn type_of(config: &Config, servant: u32) -> &'static [u8]
    ensures { result.now ≡ references.type_of config.now servant }
{
    match config.servants.as_slice().get(servant as usize) {
        Some(conf) => type_id(&conf.state),
        None => &[],
    }
}

/// Where the server listens.
fn endpoint(config: &Config) -> Result<Endpoint, WantMemory>
    ensures { IfOk result
        (λ endpoint. endpoint ≡ record { host = config.now.host; port = config.now.port }) }
{
    Ok(Endpoint {
        host: config.host.clone()?,
        port: config.port,
    })
}

/// The text of the reference.
pub fn reference_text(
    alloc: Global,
    config: &Config,
    run: u32,
    number: u32,
    path: &Path,
    oid: &Oid,
    servant: u32,
) -> Result<Bytes, WantMemory>
    ensures { IfOk result
        (λ text. text ≡ references.reference_text config.now run number path.now oid.now servant) }
{
    let key = key_for(config, run, number, path, oid)?;
    let endpoint = endpoint(config)?;
    write_reference(alloc, &endpoint, type_of(config, servant), &key)
}
