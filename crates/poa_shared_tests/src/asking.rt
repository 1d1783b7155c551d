//! The calls that callers ask.
ghost use Rattle.std.specs.Prelude.{◌≡◌};

use admin_line::read_line;
use poa_base::{Body, Bytes, Call, Head, WantMemory};
use std::alloc::Global;

/// How many objects there are.
const OBJECTS: u32 = 8;

/// Every so many calls of a caller an object is deactivated.
const DEACTIVATIONS: u32 = 5;

/// The letter of an object.
fn letter(object: u32) -> u8 {
    b'a' + (object % OBJECTS) as u8
}

/// `add 1` on an object, of so many bytes as such a message has.
pub(crate) fn add_one(alloc: Global, id: u32, object: u32) -> Result<Call, WantMemory> {
    let mut key = Vec::from_slice(alloc, b"POA\x01\x01\x01\x01s\x00\x01")?;
    key.push(letter(object))?;
    Ok(Call::Request {
        head: Head {
            id,
            minor: 2,
            little: true,
            flags: 3,
            locate: false,
        },
        target: Some(Bytes::from_vec(key)),
        operation: Bytes::from_vec(Vec::from_slice(alloc, b"add")?),
        body: Body {
            bytes: Bytes::from_vec(Vec::from_slice(alloc, b"\x01\0\0\0\0\0\0\0")?),
            little: true,
            base: 64,
        },
    })
}

/// The call of a line.
fn line(alloc: Global, number: u32, words: &[u8]) -> Result<Call, WantMemory> {
    Ok(Call::Line {
        number: number as u64,
        command: read_line(alloc, words)?,
    })
}

/// The line that deactivates an object.
fn deactivate(alloc: Global, number: u32, object: u32) -> Result<Call, WantMemory> {
    let mut words = Vec::from_slice(alloc, b"deactivate /s t:")?;
    words.push(letter(object))?;
    line(alloc, number, &words)
}

/// The line behind which requests are held.
pub(crate) fn hold(alloc: Global, number: u32) -> Result<Call, WantMemory> {
    line(alloc, number, b"manager m hold now")
}

/// The line behind which they are served.
pub(crate) fn serve(alloc: Global, number: u32) -> Result<Call, WantMemory> {
    line(alloc, number, b"manager m activate")
}

/// The call of this number of a caller: mostly `add 1` on one of the objects in turn.
pub(crate) fn call(alloc: Global, caller: u32, number: u32) -> Result<Call, WantMemory> {
    let object = caller.wrapping_add(number);
    if number % DEACTIVATIONS == DEACTIVATIONS - 1 {
        deactivate(alloc, number, object)
    } else {
        add_one(alloc, number, object)
    }
}
