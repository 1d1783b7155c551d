//! Bytes from a link.
ghost use Rattle.std.specs.Prelude.{◌≡◌, ◌<◌, ◌≢◌, length, Some};
ghost use Rattle.outside.specs.Cause.{HasCause};
ghost use Rattle.outside.specs.Link.{IsRead};
ghost use Rattle.outside.specs.Reading.{IsWithin};
ghost use Rattle.poa_session.specs.Taking.{EndsAt, Takes};

use crate::exchanged::Exchanged;
use outside::{Link, Took};
use poa_base::SessionEnd;
use session_laws::Input;

/// The most bytes that one session reads.
const INPUT_LIMIT: u64 = 1 << 40;

/// Takes in what the link has, where the round came to this before. With an end, no more is read.
pub(crate) fn take_in<L: Link>(
    link: &mut L,
    input: &mut Input,
    buffer: &mut [u8],
    before: Exchanged,
) -> Option<SessionEnd>
    requires { 0 < length buffer.old }
    ensures takes { Takes input.old input.new before.have (L.shown link.old) (L.shown link.new)
        result }
    ensures failed { HasCause (L.shown link.old).read_faults (L.shown link.new).read_faults
        (result ≡ Some SessionEnd.ReadFault) }
    ensures unwritten { result ≢ Some SessionEnd.WriteFault }
    ensures buffer { length buffer.new ≡ length buffer.old }
{
    let taken = input.taken();
    if taken == INPUT_LIMIT {
        return Some(SessionEnd::InputLimit { taken });
    }
    match read_front(link, buffer, INPUT_LIMIT - taken, before.owed > 0) {
        Took::Got(count) => {
            if input.feed(&buffer[..count]).is_err() {
                return Some(SessionEnd::WantMemory);
            }
            None
        }
        Took::Quiet => None,
        Took::End => Some(ended(before.have)),
        Took::Failed => Some(SessionEnd::ReadFault),
    }
}

// Reads no more than `most` bytes into the front of the buffer, where a reply is owed or none is.
fn read_front<L: Link>(link: &mut L, buffer: &mut [u8], most: u64, is_owed: bool) -> Took
    requires some { 0 < length buffer.old }
    requires allowed { 0 < most }
    ensures within { IsWithin result (length buffer.old) }
    ensures most { IsWithin result most }
    ensures bytes { IsRead result buffer.new (L.shown link.old) (L.shown link.new) }
    ensures failed { HasCause (L.shown link.old).read_faults (L.shown link.new).read_faults
        (result ≡ Took.Failed) }
    ensures buffer { length buffer.new ≡ length buffer.old }
{
    let room = most.min(buffer.len() as u64) as usize;
    link.read(&mut buffer[..room], is_owed)
}

// How a session ends at the end of its input, where so many bytes are left over.
fn ended(have: u64) -> SessionEnd
    ensures { EndsAt have result }
{
    match have {
        0 => SessionEnd::Ended,
        have => SessionEnd::Truncated { have },
    }
}
