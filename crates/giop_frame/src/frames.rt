//! The stream of a text that is at hand.
ghost use Rattle.std.specs.Prelude.{◌≡◌, ◌+◌, ◌<◌, ◌^◌, ℕ, List, [], length, IfOk, OnOk};
ghost use Rattle.giop_frame.specs.Framer.{HasGiven, reach};
ghost use Rattle.giop_frame.specs.Frames.{Closes, joined_pieces};

use crate::framer::Framer;
use crate::message::Message;
use crate::next::Next;
use poa_base::WantMemory;
use std::alloc::Global;

/// The stream of a text that is at hand: its messages, and what is said after the last one.
#[derive(Drop)]
pub struct Frames {
    pub messages: Vec<Message>,
    pub last: Next,
}

/// The stream of a text that is at hand in pieces, each of which is fed to one framer.
///
/// However the text is cut, the messages and the last answer are its stream. No message is longer
/// than `limit` without its header.
pub fn frame(alloc: Global, limit: u32, pieces: &[&[u8]]) -> Result<Frames, WantMemory>
    requires { length (joined_pieces pieces.now) < 2 ^ 62 }
    ensures { IfOk result (λ f. Closes limit (joined_pieces pieces.now) f.messages.items f.last) }
{
    let mut framer = Framer::new(alloc, limit);
    let mut messages = Vec::new(alloc);
    feed_pieces(&mut framer, &mut messages, pieces)?;
    let last = drain(&mut framer, &mut messages)?;
    Ok(Frames { messages, last })
}

/// Feeds the pieces one after another, and takes the messages that are whole before each.
fn feed_pieces(
    framer: &mut Framer,
    messages: &mut Vec<Message>,
    pieces: &[&[u8]],
) -> Result<(), WantMemory>
    requires { reach framer.old + length (joined_pieces pieces.now) < 2 ^ 62 }
    ensures { OnOk result ((limit : ℕ) → HasGiven limit [] messages.old.items framer.old
        → HasGiven limit (joined_pieces pieces.now) messages.new.items framer.new) }
{
    for piece in pieces {
        let _ = drain(framer, messages)?;
        framer.feed(piece)?;
    }
    Ok(())
}

/// Takes the messages that are whole, and gives what is said after them: that more bytes are
/// needed, or what is bad. It takes no bytes from outside.
pub fn drain(framer: &mut Framer, messages: &mut Vec<Message>) -> Result<Next, WantMemory>
    ensures given { IfOk result (λ last. (limit : ℕ) (fed : List ℕ) → HasGiven limit fed messages.old.items framer.old
        → HasGiven limit fed messages.new.items framer.new × Closes limit fed messages.new.items last) }
    ensures reached { reach framer.new ≡ reach framer.old }
{
    loop {
        match framer.next()? {
            Next::Message(message) => messages.push(message)?,
            Next::NeedMore { have } => return Ok(Next::NeedMore { have }),
            Next::Bad { at, why } => return Ok(Next::Bad { at, why }),
        }
    }
}
