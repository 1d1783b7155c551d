//! The answer of a server, heard.
ghost use Rattle.std.specs.Prelude.{◌≡◌, ◌<◌, ◌≤◌, length, take};
ghost use Rattle.outside.specs.Cause.{HasCause};
ghost use Rattle.outside.specs.Link.{IsRead};
ghost use Rattle.outside.specs.Reading.{IsWithin};
ghost use Rattle.giop_client.specs.Ending.{Suffers};
ghost use Rattle.giop_client.specs.Talking.{Listens};

use crate::call_end::CallEnd;
use crate::hearing::{READ_LIMIT, hear};
use crate::step::Step;
use giop_frame::Framer;
use outside::{Link, Took};
use poa_base::limits::MESSAGE_LIMIT;
use std::alloc::Global;

/// So many reads of a link may find nothing. A read of a real link waits a while before it says so.
pub const MOST_QUIETS: u32 = 6_000;

// How much a read takes at most.
const PIECE: usize = 4_096;

/// Reads what the link gives up to its first message, and answers what follows from it for the request of this id.
pub(crate) fn listen<L: Link>(alloc: Global, link: &mut L, id: u32) -> Step
    ensures listens { Listens id (L.shown link.old) (L.shown link.new) result }
    ensures cause { Suffers result (L.shown link.new) }
{
    let mut framer = Framer::new(alloc, MESSAGE_LIMIT);
    let mut buffer = [0; PIECE];
    let mut heard = 0;
    let mut quiets = 0;
    while quiets < MOST_QUIETS {
        match read_front(link, &mut buffer, READ_LIMIT - heard) {
            Took::Got(count) => {
                heard += count as u64;
                let piece = front(&buffer, count);
                match hear(alloc, &mut framer, piece, heard, id) {
                    Ok(None) => {}
                    Ok(Some(said)) => return Step::by(said),
                    Err(_) => return Step::End(CallEnd::WantMemory),
                }
            }
            Took::Quiet => quiets += 1,
            Took::End => return Step::End(CallEnd::Closed),
            Took::Failed => return Step::End(CallEnd::ReadFault),
        }
    }
    Step::End(CallEnd::NoAnswer { quiets })
}

// Reads no more than `most` bytes into the front of the buffer.
fn read_front<L: Link>(link: &mut L, buffer: &mut [u8], most: u64) -> Took
    requires some { 0 < length buffer.old }
    requires allowed { 0 < most }
    ensures within { IsWithin result (length buffer.old) }
    ensures most { IsWithin result most }
    ensures len { length buffer.new ≡ length buffer.old }
    ensures bytes { IsRead result buffer.new (L.shown link.old) (L.shown link.new) }
    ensures failed { HasCause (L.shown link.old).read_faults (L.shown link.new).read_faults
        (result ≡ Took.Failed) }
    ensures quiet { HasCause (L.shown link.old).quiets (L.shown link.new).quiets
        (result ≡ Took.Quiet) }
{
    let room = most.min(buffer.len() as u64) as usize;
    link.read(&mut buffer[..room], true)
}

// The front of a buffer, of so many bytes.
fn front(buffer: &[u8], count: usize) -> &[u8]
    requires { count ≤ length buffer.now }
    ensures { result.now ≡ take count buffer.now }
{
    &buffer[..count]
}
