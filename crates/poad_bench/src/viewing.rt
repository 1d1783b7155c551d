//! Viewing the call of a message.

use giop_frame::{Framer, Message, Next, WantMemory};
use giop_msg::{Seen, view_call};
use std::alloc::Global;

/// A little-endian Request of 72 bytes: `add` of 1 to an object of the root.
const REQUEST: &[u8] = b"GIOP\x01\x02\x01\0\x3c\0\0\0\x01\0\0\0\x03\0\0\0\0\0\0\0\x18\0\0\0\
    POA\x01\0\0\0\0\x01\0\0\0\0\0\0\x08\0\0\0\x01\0\0\0\x01\
    \x04\0\0\0add\0\0\0\0\0\x01\0\0\0\0\0\0\0";

/// How many of so many views of the request lend its operation.
pub fn views_of(alloc: Global, times: u32) -> Result<u64, WantMemory> {
    let mut framer = Framer::new(alloc, 1_048_576);
    framer.feed(REQUEST)?;
    match framer.next()? {
        Next::Message(message) => Ok(count(&message, times)),
        _ => Ok(0),
    }
}

/// How many of so many views of a message lend `add` as its operation.
fn count(message: &Message, times: u32) -> u64 {
    let mut given = 0u64;
    for _ in 0..times {
        if lends_add(message) {
            given = given.saturating_add(1);
        }
    }
    given
}

/// Whether the message asks for `add`.
fn lends_add(message: &Message) -> bool {
    match view_call(message) {
        Ok(Seen::Request { operation, .. }) => operation == b"add".as_slice(),
        _ => false,
    }
}
