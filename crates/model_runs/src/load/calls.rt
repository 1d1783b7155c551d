//! The calls that arrive.
ghost use Rattle.std.specs.Prelude.{◌≡◌, IsFalse};

use crate::fault::Fault;
use admin_line::read_line;
use object_key::write_key;
use poa_base::{Body, Bytes, Call, Head, Key, Name, Oid, Path, WantMemory};
use std::alloc::Global;

/// The head of the request with this id.
pub fn head(id: u32) -> Head
    ensures minor { result.minor ≡ 2 }
    ensures request { IsFalse result.locate }
{
    Head {
        id,
        minor: 2,
        little: true,
        flags: 3,
        locate: false,
    }
}

/// The request with this id that adds 1 to an object.
pub fn request(alloc: Global, id: u32, object: u64) -> Result<Call, Fault> {
    let one: i64 = 1;
    let (operation, argument) = (bytes(alloc, b"add")?, bytes(alloc, &one.to_le_bytes())?);
    Ok(Call::Request {
        head: head(id),
        target: Some(target(alloc, object)?),
        operation,
        body: Body {
            bytes: argument,
            little: true,
            base: 0,
        },
    })
}

/// The key of an object.
fn target(alloc: Global, object: u64) -> Result<Bytes, Fault> {
    let key = Key {
        stamp: None,
        path: path(alloc)?,
        oid: object_id(alloc, object)?,
        tag: 0,
    };
    Ok(write_key(alloc, &key)?)
}

/// The administrator's line with this number that deactivates an object.
pub fn deactivation(alloc: Global, number: u64, object: u64) -> Result<Call, Fault> {
    let text = format!(in alloc; "deactivate /load t:o{object}")?;
    let command = read_line(alloc, text.as_bytes())?;
    Ok(Call::Line { number, command })
}

/// The administrator's line with this number that ends the run.
pub fn shutdown(alloc: Global, number: u64) -> Result<Call, Fault> {
    let command = read_line(alloc, b"shutdown")?;
    Ok(Call::Line { number, command })
}

/// The path `/load`.
pub fn path(alloc: Global) -> Result<Path, Fault> {
    let name = Name::from_vec(Vec::from_slice(alloc, b"load")?).ok_or(Fault::Load)?;
    let mut names = Vec::new(alloc);
    names.push(name)?;
    Path::from_vec(names).ok_or(Fault::Load)
}

/// The id `t:oK` of an object.
pub fn object_id(alloc: Global, object: u64) -> Result<Oid, Fault> {
    let text = format!(in alloc; "o{object}")?;
    Oid::from_vec(text.into_bytes()).ok_or(Fault::Load)
}

fn bytes(alloc: Global, text: &[u8]) -> Result<Bytes, WantMemory> {
    Ok(Bytes::from_vec(Vec::from_slice(alloc, text)?))
}
