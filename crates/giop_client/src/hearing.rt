//! What a link gives, up to its first message.
ghost use Rattle.std.specs.Prelude.{◌≡◌, ◌+◌, ◌<◌, ◌≤◌, ◌^◌, ◌++◌, ℕ, List, [], length, IfOk, IfNone};
ghost use Rattle.poa_base.specs.declared.limits.TheConstants.{MESSAGE_LIMIT};
ghost use Rattle.giop_frame.specs.Framer.{HasGiven, reach};
ghost use Rattle.giop_client.specs.Hop.{said_so_far};
ghost use Rattle.giop_client.specs.Talking.{Hears};

use crate::hop::Hop;
use crate::hop_reading::read_hop;
use giop_frame::{Framer, Next, a_framer_goes_on};
use poa_base::WantMemory;
use std::alloc::Global;

/// So many bytes of a link are read at most.
pub const READ_LIMIT: u64 = 1 << 25;

/// Takes a piece that a link gave, up to whose end it gave `heard` bytes, and tells what these say to the request of
/// this id; none where they say nothing yet.
pub(crate) fn hear(
    alloc: Global,
    framer: &mut Framer,
    piece: &[u8],
    heard: u64,
    id: u32,
) -> Result<Option<Hop>, WantMemory>
    requires room { reach framer.old + length piece.now < 2 ^ 62 }
    requires limit { framer.old.limit ≡ MESSAGE_LIMIT }
    ensures hears { IfOk result (λ said. (text : List ℕ) → HasGiven MESSAGE_LIMIT text [] framer.old
        → length (text ++ piece.now) ≡ heard → Hears id (text ++ piece.now) said framer.new) }
    ensures more { IfOk result (λ said. IfNone said (heard < READ_LIMIT)) }
    ensures reached { reach framer.new ≤ reach framer.old + length piece.now }
    ensures limit { framer.new.limit ≡ MESSAGE_LIMIT }
{
    // For its clauses: a framer goes on behind its first message.
    a_framer_goes_on();
    framer.feed(piece)?;
    let next = framer.next()?;
    match next {
        Next::Message(message) => {
            let said = read_hop(alloc, &message, id)?;
            Ok(Some(said))
        }
        Next::NeedMore { .. } => Ok(so_far(heard)),
        Next::Bad { .. } => Ok(Some(Hop::BadReply)),
    }
}

// What so many bytes say that hold no whole message.
fn so_far(heard: u64) -> Option<Hop>
    ensures said { result ≡ said_so_far heard }
    ensures more { IfNone result (heard < READ_LIMIT) }
{
    if heard < READ_LIMIT {
        None
    } else {
        Some(Hop::BadReply)
    }
}
