//! Where the parts lie that a view of a message lends.

use giop_frame::frame;
use giop_msg::{Seen, view_call};
use std::alloc::Global;
use std::test::Fail;

/// The longest stream that is read.
const LONGEST: usize = 4096;

/// `add` of 5 with id 1, little-endian.
const ADD: &str =
    "47494f50010201003c00000001000000030000000000000018000000504f410100000000010000000000000800000001\
000000010400000061646400000000000500000000000000";

/// A LocateRequest with id 3 for the object of the same key.
const LOCATE: &str =
    "47494f500102010324000000030000000000000018000000504f41010000000001000000000000080000000100000001";

/// `get` with id 1 of the object that a profile tells.
const GET_BY_PROFILE: &str =
    "47494f5001020100540000000100000003000000010000000000000034000000000102000000000a3132372e30\
2e302e31000af900000018504f4101000000000100000000000008000000010000000100000000040000006765\
740000000000";

/// `add` of 5 with id 2 of the object that the second profile of a reference tells.
const ADD_BY_REFERENCE: &str =
    "47494f50010201007c000000020000000300000002000000010000000100000000000000020000000700000002\
000000aabb00000000000034000000000102000000000a3132372e302e302e31000af900000018504f41010000\
000001000000000000080000000100000001000000000400000061646400000000000000000005000000000000\
00";

/// `get` with id 1 of the object that a profile of tag 7 tells.
const GET_BY_NO_KEY: &str =
    "47494f5001020100200000000100000003000000010000000700000000000000040000006765740000000000";

#[test]
fn a_request_lends_its_key_its_operation_and_its_body(rt: HostRuntime) -> Result<(), Fail> {
    assert!(rt; lends(rt.alloc(), ADD, [(28, 52), (56, 59), (64, 72)])?);
    Ok(())
}

#[test]
fn a_locate_lends_its_key(rt: HostRuntime) -> Result<(), Fail> {
    assert!(rt; lends(rt.alloc(), LOCATE, [(24, 48), NOWHERE, NOWHERE])?);
    Ok(())
}

#[test]
fn a_key_is_lent_from_inside_its_profile(rt: HostRuntime) -> Result<(), Fail> {
    let alloc = rt.alloc();
    assert!(rt; lends(alloc, GET_BY_PROFILE, [(56, 80), (88, 91), NOWHERE])?);
    assert!(rt; lends(alloc, ADD_BY_REFERENCE, [(84, 108), (116, 119), (128, 136)])?);
    assert!(rt; lends(alloc, GET_BY_NO_KEY, [NOWHERE, (36, 39), NOWHERE])?);
    Ok(())
}

/// Where a part begins and ends that has no bytes.
const NOWHERE: (usize, usize) = (0, 0);

/// Whether the first message of a stream lends the key of its target, its operation and its body from these places. The stream
/// is in hexadecimal digits.
fn lends(alloc: Global, stream: &str, places: [(usize, usize); 3]) -> Result<bool, Fail> {
    let stream = hex::decode(alloc, stream)?;
    let stream = &stream.as_slice()[..stream.len().min(LONGEST)];
    let frames = frame(alloc, 1_048_576, &[stream])?;
    let Some(message) = frames.messages.first() else {
        return Ok(false);
    };
    let bytes = message.bytes();
    let [key_at, operation_at, body_at] = places;
    match view_call(message) {
        Ok(
            Seen::Request {
                target,
                operation,
                body,
                ..
            },
        ) => Ok(
            lies(bytes, target.unwrap_or(&[]), key_at)
                && lies(bytes, operation, operation_at)
                && lies(bytes, body, body_at),
        ),
        Ok(Seen::Locate { target, .. }) => Ok(lies(bytes, target.unwrap_or(&[]), key_at)),
        _ => Ok(false),
    }
}

/// Whether a part is what lies in the message from one place up to another.
fn lies(bytes: &[u8], part: &[u8], (start, end): (usize, usize)) -> bool {
    bytes.get(start..end) == Some(part)
}
