//! Feeding a stream in pieces.
ghost use Rattle.std.specs.Prelude.{◌≡◌, ◌+◌, ◌<◌, ◌≤◌, ◌^◌, length};
ghost use Rattle.giop_frame.specs.Framer.{reach};

use giop_frame::{Framer, Next, WantMemory};
use std::alloc::Global;

/// The limit on one message.
const LIMIT: u32 = 1_048_576;
/// The longest stream that is fed.
const LONGEST: usize = 1 << 30;

/// How many messages come where a stream is fed in pieces of this length, and none where the stream is too long.
pub fn messages_of(alloc: Global, text: &[u8], piece: usize) -> Result<u64, WantMemory> {
    if text.len() > LONGEST {
        return Ok(0);
    }
    let mut framer = Framer::new(alloc, LIMIT);
    feed(&mut framer, text, piece)
}

fn feed(framer: &mut Framer, text: &[u8], piece: usize) -> Result<u64, WantMemory>
    requires { reach framer.old + length text.now < 2 ^ 62 }
{
    let mut given = 0u64;
    let mut rest = text;
    while !rest.is_empty() {
        let (front, behind) = rest.split_at(piece.max(1).min(rest.len()));
        framer.feed(front)?;
        given = given.saturating_add(take(framer)?);
        rest = behind;
    }
    Ok(given)
}

/// Takes the messages that are whole, and counts them.
fn take(framer: &mut Framer) -> Result<u64, WantMemory>
    ensures { reach framer.new ≡ reach framer.old }
{
    let mut given = 0u64;
    loop {
        match framer.next()? {
            Next::Message(_) => given = given.saturating_add(1),
            _ => return Ok(given),
        }
    }
}
