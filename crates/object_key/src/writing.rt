//! From a key to its octets.
ghost use Rattle.std.specs.Prelude.{◌≡◌, ◌<◌, ◌^◌, ◌++◌, IfOk, OnOk};
ghost use Rattle.object_key.specs.Spelling.{tag_bytes, lifespan_bytes, name_bytes, path_bytes, oid_bytes, key_spelling, IsStamp, TagsPersistent, ArePathNames, IsKey};
ghost use Rattle.poa_base.specs.Limits.{IsOid, IsName};

use poa_base::{Bytes, Key, Name, Oid, Path, Stamp, WantMemory};
use std::alloc::Global;

/// The octets that every key begins with.
const MARK: [u8; 3] = [b'P', b'O', b'A'];

/// The spelling of a key: form 2 where it has a tag, else form 1.
pub fn write_key(alloc: Global, key: &Key) -> Result<Bytes, WantMemory>
    requires { TagsPersistent key.now }
    ensures spelling { IfOk result (λ bytes. bytes ≡ key_spelling key.now) }
    // Whatever is written is within the limits, so `read_key` gives it back.
    ensures key { OnOk result (IsKey key.now) }
{
    let mut out = Vec::from_slice(alloc, &MARK)?;
    write_lifespan(&mut out, key.stamp, key.tag)?;
    write_path(&mut out, &key.path)?;
    write_oid(&mut out, &key.oid)?;
    Ok(Bytes::from_vec(out))
}

/// The form and the lifespan, with a transient key's stamp or a persistent key's tag.
fn write_lifespan(out: &mut Vec<u8>, stamp: Option<Stamp>, tag: u16) -> Result<(), WantMemory>
    ensures bytes { OnOk result (out.new.items ≡ out.old.items ++ lifespan_bytes stamp tag) }
    ensures stamp { IsStamp stamp }
    ensures tag { tag < 2 ^ 16 }
{
    match stamp {
        None => write_tag(out, tag)?,
        Some(stamp) => {
            out.extend_from_slice(&[1, 0])?;
            out.extend_from_slice(&stamp.run.to_be_bytes())?;
            out.extend_from_slice(&stamp.number.to_be_bytes())?;
        }
    }
    Ok(())
}

/// The form and the lifespan of a persistent key, and its tag where it has one.
fn write_tag(out: &mut Vec<u8>, tag: u16) -> Result<(), WantMemory>
    ensures { OnOk result (out.new.items ≡ out.old.items ++ tag_bytes tag) }
{
    if tag == 0 {
        return out.extend_from_slice(&[1, 1]);
    }
    out.extend_from_slice(&[2, 1])?;
    out.extend_from_slice(&tag.to_be_bytes())
}

/// The count of the names, and each of them.
fn write_path(out: &mut Vec<u8>, path: &Path) -> Result<(), WantMemory>
    ensures bytes { OnOk result (out.new.items ≡ out.old.items ++ path_bytes path.now) }
    ensures names { OnOk result (ArePathNames path.now) }
{
    let names = path.as_slice();
    out.push(names.len() as u8)?;
    for name in names {
        write_name(out, name)?;
    }
    Ok(())
}

/// The length of a name, and the name.
fn write_name(out: &mut Vec<u8>, name: &Name) -> Result<(), WantMemory>
    ensures bytes { OnOk result (out.new.items ≡ out.old.items ++ name_bytes name.now) }
    ensures name { IsName name.now }
{
    let bytes = name.as_slice();
    out.push(bytes.len() as u8)?;
    out.extend_from_slice(bytes)
}

/// The length of the object id, and the id.
fn write_oid(out: &mut Vec<u8>, oid: &Oid) -> Result<(), WantMemory>
    ensures bytes { OnOk result (out.new.items ≡ out.old.items ++ oid_bytes oid.now) }
    ensures oid { IsOid oid.now }
{
    let bytes = oid.as_slice();
    out.extend_from_slice(&(bytes.len() as u16).to_be_bytes())?;
    out.extend_from_slice(bytes)
}
