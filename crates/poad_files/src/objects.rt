//! The references of the configured objects.
ghost use Rattle.std.specs.Prelude.{◌≡◌, ◌++◌, ◌+◌, ◌≤◌, ◌<◌, ◌^◌, suc, length, IfOk, OnOk};
ghost use Rattle.std.specs.List.{slice_get};
ghost use Rattle.std.specs.Int.{w32, to_be_bytes};
ghost use Rattle.std.specs.Option.{option_copied};
ghost use Rattle.object_key.specs.Spelling.{TagsPersistent};
ghost use Rattle.history_standing.specs.Reference.{reference_text};
ghost use Rattle.std.specs.BTreeMap as tree;
ghost use Rattle.poa_base.specs.Store.{path_cmp};
ghost use Rattle.poa_policy.specs.Kept.{KeepsRules};
ghost use Rattle.poad_files.specs.Objects as spec;
ghost use Rattle.poad_files.specs.Objects.{references_text};

use crate::numbering::{Numbers, adapter_numbers};
use crate::tags::tag_at;
use history_standing::write_reference;
use poa_base::{
    Bytes, Config, Endpoint, Key, ObjectConf, Oid, Path, ServantConf, Stamp, TryClone, WantMemory,
};
use servant_kinds::type_id;
use std::alloc::Global;
use text_words::path_text;

/// A line for each configured object, in their order: the adapter's path, the object id and the reference.
/// A system-made id has the next ordinal, from 1 on; the reference has the configuration's run, host and port, and its
/// persistent key the tag of the adapter's entry.
pub fn references(alloc: Global, config: &Config) -> Result<Bytes, WantMemory>
    requires { KeepsRules config.now }
    ensures { IfOk result (λ text. text ≡ references_text config.now) }
{
    let numbers = adapter_numbers(alloc, config.adapters.as_slice())?;
    let mut made = 0;
    let mut out = Vec::new(alloc);
    for object in config.objects.as_slice() {
        put_object(&mut out, config, &numbers, made + 1, object)?;
        made = made_with(made, &object.oid);
    }
    Ok(Bytes::from_vec(out))
}

// How many ids are made with that of one more object.
fn made_with(made: u32, oid: &Option<Oid>) -> u32
    requires { made < 2 ^ 31 }
    ensures made { result ≡ spec.made_with oid.now made }
    ensures most { result ≤ made + 1 }
{
    match oid {
        Some(_) => made,
        None => made + 1,
    }
}

// Adds the line of an object, whose id has this ordinal where it is made.
fn put_object(
    out: &mut Vec<u8>,
    config: &Config,
    numbers: &Numbers,
    ordinal: u32,
    object: &ObjectConf,
) -> Result<(), WantMemory>
    ensures { OnOk result (out.new.items ≡ out.old.items
        ++ spec.object_line config.now (tree.get path_cmp numbers.now) object.now.adapter
        (spec.id_of config.now.run ordinal object.now.oid) object.now.servant) }
{
    let alloc = *out.allocator();
    let oid = object_id(alloc, config.run, ordinal, &object.oid)?;
    let number = number_at(numbers, &object.adapter);
    let tag = tag_at(config.adapters.as_slice(), &object.adapter);
    let key = key_of(config.run, number, tag, &object.adapter, oid)?;
    let type_id = type_of(config, object.servant);
    let reference = reference(alloc, config, type_id, &key)?;
    put_line(out, &key, reference.as_slice())
}

// The id that was given, or a system-made one.
fn object_id(alloc: Global, run: u32, ordinal: u32, oid: &Option<Oid>) -> Result<Oid, WantMemory>
    ensures { IfOk result (λ id. id ≡ spec.id_of run ordinal oid.now) }
{
    match oid {
        Some(id) => Ok(id.try_clone()?),
        None => made_id(alloc, run, ordinal),
    }
}

fn made_id(alloc: Global, run: u32, ordinal: u32) -> Result<Oid, WantMemory>
    ensures { IfOk result (λ id. id ≡ to_be_bytes w32 run ++ to_be_bytes w32 ordinal) }
{
    let mut bytes = Vec::from_slice(alloc, &run.to_be_bytes())?;
    bytes.extend_from_slice(&ordinal.to_be_bytes())?;
    Ok(Oid::from_vec(bytes).unwrap())
}

fn key_of(
    run: u32,
    number: Option<u32>,
    tag: Option<u16>,
    path: &Path,
    oid: Oid,
) -> Result<Key, WantMemory>
    ensures key { IfOk result (λ key. key ≡ spec.key_of run number tag path.now oid) }
    ensures tagged { IfOk result TagsPersistent }
{
    let path = path.try_clone()?;
    let (stamp, tag) = match number {
        Some(number) => (Some(Stamp { run, number }), 0),
        None => (None, given_tag(tag)),
    };
    Ok(Key {
        stamp,
        path,
        oid,
        tag,
    })
}

// The tag that an entry gives, if there is one.
fn given_tag(tag: Option<u16>) -> u16
    ensures { result ≡ spec.given_tag tag }
{
    match tag {
        Some(tag) => tag,
        None => 0,
    }
}

fn number_at(numbers: &Numbers, path: &Path) -> Option<u32>
    ensures { result ≡ tree.get path_cmp numbers.now path.now }
{
    numbers.get(path).copied()
}

// The type id of a configured servant.
fn type_of(config: &Config, servant: u32) -> &[u8]
    ensures { result.now ≡ spec.type_in (slice_get config.now.servants servant) }
{
    type_in(config.servants.as_slice().get(servant as usize))
}

fn type_in(servant: Option<&ServantConf>) -> &[u8]
    ensures { result.now ≡ spec.type_in (option_copied servant.entry) }
{
    match servant {
        Some(servant) => type_id(&servant.state),
        None => b"",
    }
}

fn reference(alloc: Global, config: &Config, type_id: &[u8], key: &Key) -> Result<Bytes, WantMemory>
    requires { TagsPersistent key.now }
    ensures { IfOk result (λ text. text ≡ reference_text (record { host = config.now.host; port = config.now.port }) type_id.now key.now) }
{
    let endpoint = Endpoint {
        host: config.host.try_clone()?,
        port: config.port,
    };
    write_reference(alloc, &endpoint, type_id, key)
}

// Adds a line.
fn put_line(out: &mut Vec<u8>, key: &Key, reference: &[u8]) -> Result<(), WantMemory>
    ensures { OnOk result (out.new.items ≡ out.old.items ++ spec.line key.now.path key.now.oid reference.now) }
{
    let alloc = *out.allocator();
    let path = path_text(alloc, &key.path)?;
    let digits = hex::encode(alloc, key.oid.as_slice())?;
    out.extend_from_slice(path.as_slice())?;
    out.extend_from_slice(b" h:")?;
    out.extend_from_slice(digits.as_bytes())?;
    out.extend_from_slice(b" ")?;
    out.extend_from_slice(reference)?;
    out.extend_from_slice(b"\n")
}
