//! The streams.

use giop_frame::WantMemory;
use std::alloc::Global;

/// The type of a Request.
const REQUEST: u8 = 0;
/// The type of a Fragment.
const FRAGMENT: u8 = 7;

/// Puts a little-endian part behind a text: its flags, type, size and id, and zeros.
fn put_part(text: &mut Vec<u8>, flags: u8, kind: u8, size: u32, id: u32) -> Result<(), WantMemory> {
    text.extend_from_slice(b"GIOP\x01\x02")?;
    text.extend_from_slice(&[flags, kind])?;
    text.extend_from_slice(&size.to_le_bytes())?;
    text.extend_from_slice(&id.to_le_bytes())?;
    for _ in 4..size.max(4) {
        text.push(0)?;
    }
    Ok(())
}

/// So many Requests of one part and of this size.
pub fn requests(alloc: Global, count: u32, size: u32) -> Result<Vec<u8>, WantMemory> {
    let mut text = Vec::new(alloc);
    for id in 0..count {
        put_part(&mut text, 1, REQUEST, size, id)?;
    }
    Ok(text)
}

/// So many Requests that stay open.
pub fn open_requests(alloc: Global, count: u32) -> Result<Vec<u8>, WantMemory> {
    let mut text = Vec::new(alloc);
    for id in 0..count {
        put_part(&mut text, 3, REQUEST, 4, id)?;
    }
    Ok(text)
}

/// A Request with so many empty Fragments.
pub fn empty_fragments(alloc: Global, count: u32) -> Result<Vec<u8>, WantMemory> {
    let mut text = Vec::new(alloc);
    put_part(&mut text, 3, REQUEST, 4, 1)?;
    for _ in 0..count {
        put_part(&mut text, 3, FRAGMENT, 4, 1)?;
    }
    put_part(&mut text, 1, FRAGMENT, 4, 1)?;
    Ok(text)
}
