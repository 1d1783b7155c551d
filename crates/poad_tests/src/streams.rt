//! Streams of a stranger's sizes, and why a header is bad.
ghost use Rattle.std.specs.Prelude.{◌<◌, ◌^◌, length};

use giop_frame::{Frames, Message, Next, Why, each_text_has_one_stream, frame};
use poa_base::WantMemory;
use std::alloc::Global;
use std::test::Fail;

const LIMIT: u32 = 1_048_576;

/// A Request with id 2 of the operation `get`.
const GET: &[u8] =
    b"GIOP\x01\x02\x01\x004\x00\x00\x00\x02\x00\x00\x00\x03\x00\x00\x00\x00\x00\x00\x00\x18\x00\x00\x00POA\x01\x00\x00\x00\x00\x01\x00\x00\x00\x00\x00\x00\x08\x00\x00\x00\x01\x00\x00\x00\x01\x04\x00\x00\x00get\x00\x00\x00\x00\x00";

/// A little-endian header of GIOP 1.2.
fn header(flags: u8, kind: u8, size: u32) -> [u8; 12] {
    let [a, b, c, d] = size.to_le_bytes();
    [b'G', b'I', b'O', b'P', 1, 2, flags, kind, a, b, c, d]
}

/// Puts a little-endian part of this id behind a text, filled with zeros.
fn put_part(
    text: &mut Vec<u8>,
    flags: u8,
    kind: u8,
    id: u32,
    filling: &[u8],
) -> Result<(), WantMemory>
    requires { length filling.now < 2 ^ 31 }
{
    text.extend_from_slice(&header(flags, kind, filling.len() as u32 + 4))?;
    text.extend_from_slice(&id.to_le_bytes())?;
    text.extend_from_slice(filling)
}

/// Whether there is one message, at this place and of these bytes.
fn gives(frames: &Frames, place: u64, bytes: &[u8]) -> bool {
    match frames.messages.as_slice() {
        [message] => message.at() == place && message.bytes() == bytes,
        _ => false,
    }
}

/// Whether this place is bad for this reason.
fn fails(frames: &Frames, place: u64, reason: Why) -> bool {
    match frames.last {
        Next::Bad { at, why } => at == place && why == reason,
        _ => false,
    }
}

/// Whether the stream of a text is bad at this place for this reason.
fn is_bad(alloc: Global, text: &[u8], place: u64, reason: Why) -> Result<bool, WantMemory>
    requires { length text.now < 2 ^ 31 }
{
    let frames = frame(alloc, LIMIT, &[text])?;
    Ok(fails(&frames, place, reason))
}

/// Puts the first parts of so many messages behind a text, by the ids from 0 on.
fn put_beginnings(text: &mut Vec<u8>, messages: u32) -> Result<(), WantMemory> {
    for id in 0..messages {
        put_part(text, 3, 3, id, &[])?;
    }
    Ok(())
}

#[test]
fn opens_a_million_messages_and_refuses_one_more(rt: HostRuntime) -> Result<(), Fail> {
    let mut text = Vec::new(rt.alloc());
    put_beginnings(&mut text, 1_048_577)?;
    assert!(rt; text.len() == 16_777_232);
    assert!(rt; is_bad(rt.alloc(), text.as_slice(), 16_777_216, Why::TooLong)?);
    Ok(())
}

/// Puts a message of id 9 with so many empty fragments and a last one behind a text.
fn put_fragments(text: &mut Vec<u8>, empty: u32) -> Result<(), WantMemory> {
    put_part(text, 3, 0, 9, &[])?;
    for _ in 0..empty {
        put_part(text, 3, 7, 9, &[])?;
    }
    put_part(text, 1, 7, 9, b"end")
}

/// Whether the stream of a text is this message alone, from its first byte on.
fn is_one(alloc: Global, text: &[u8], message: &[u8]) -> Result<bool, WantMemory>
    requires { length text.now < 2 ^ 31 }
{
    let frames = frame(alloc, LIMIT, &[text])?;
    Ok(gives(&frames, 0, message))
}

#[test]
fn joins_a_hundred_thousand_empty_fragments(rt: HostRuntime) -> Result<(), Fail> {
    let mut text = Vec::new(rt.alloc());
    put_fragments(&mut text, 100_000)?;
    assert!(rt; text.len() == 1_600_035);
    let joined = b"GIOP\x01\x02\x03\x00\x04\x00\x00\x00\x09\x00\x00\x00end";
    assert!(rt; is_one(rt.alloc(), text.as_slice(), joined)?);
    Ok(())
}

#[test]
fn tells_why_a_header_is_bad(rt: HostRuntime) -> Result<(), Fail> {
    let cases = [
        (b"GIOQ\x01\x02\x01\x00\x00\x00\x00\x00", Why::BadMagic),
        (b"GIOP\x01\x03\x01\x00\x00\x00\x00\x00", Why::BadVersion),
        (b"GIOP\x02\x00\x01\x00\x00\x00\x00\x00", Why::BadVersion),
        (b"GIOP\x01\x02\x01\x08\x00\x00\x00\x00", Why::BadType),
        (b"GIOP\x01\x00\x01\x07\x04\x00\x00\x00", Why::BadType),
        (b"GIOP\x01\x01\x01\x07\x04\x00\x00\x00", Why::StrayFragment),
        (b"GIOP\x01\x01\x03\x00\x04\x00\x00\x00", Why::BadFragment),
        (b"GIOP\x01\x02\x03\x01\x01\x00\x10\x00", Why::TooLong),
        (b"GIOP\x01\x02\x01\x07\x04\x00\x00\x00", Why::StrayFragment),
        (b"GIOP\x01\x02\x03\x01\x04\x00\x00\x00", Why::BadFragment),
        (b"GIOP\x01\x02\x03\x00\x03\x00\x00\x00", Why::BadFragment),
    ];
    for (text, why) in cases {
        assert!(rt; is_bad(rt.alloc(), text.as_slice(), 0, why)?);
    }
    Ok(())
}

/// Whether the message that is made of another one's bytes has its place, and the bytes of `GET`.
fn is_made_again(message: Message) -> bool {
    let again = Message::new(7, message.into_bytes());
    again.at() == 7 && again.into_bytes().as_slice() == GET
}

#[test]
fn makes_a_message_and_gives_its_bytes(rt: HostRuntime) -> Result<(), Fail> {
    each_text_has_one_stream();
    let messages = frame(rt.alloc(), LIMIT, &[GET])?.messages;
    assert!(rt; messages.len() == 1);
    for message in messages {
        assert!(rt; is_made_again(message));
    }
    Ok(())
}
