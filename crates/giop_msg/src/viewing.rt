//! The call of a message, read where it lies.
ghost use Rattle.std.specs.Prelude.{◌≡◌, ◌≤◌, ℕ, Result, Ok, Err, IfOk, IfErr, OnErr, length};
ghost use Rattle.giop_frame.specs.Part.{is_little as little_flag, minor_of as version_of};
ghost use Rattle.giop_frame.specs.Message.{IsMessage};
ghost use Rattle.giop_msg.specs.declared.incoming.Incoming.{Incoming as IncomingData};
ghost use Rattle.giop_msg.specs.declared.fault.MsgFault.{MsgFault as MsgFaultData};
ghost use Rattle.giop_msg.specs.Fields.{fields_start};
ghost use Rattle.giop_msg.specs.Call.{CallOf, HasId};
ghost use Rattle.giop_msg.specs.Seen.{asked_by, told_by, answer_of};
ghost use Rattle.giop_msg.specs.Lent.{LendsParts};

use crate::locate::view_locate;
use crate::request::view_request;
use crate::seen::Seen;
use crate::view_fault::{Unreadable, ViewFault};
use cdr_core::View;
use giop_answer::kind::{CANCEL_REQUEST, CLOSE_CONNECTION, HEADER, LOCATE_REQUEST, REQUEST};
use giop_frame::Message;

/// What a message of any version asks of a server: the call of a Request or a LocateRequest, the id of a CancelRequest,
/// or a CloseConnection. A call whose target is told by a profile or by a reference from which no key can be read
/// has no target. Takes no memory: the key, the operation and the body are slices of the message.
///
/// `Malformed` where the fields of a Request, LocateRequest or CancelRequest can't be read: the id; of the two
/// calls the target; and of a Request the response flags (before version 1.2 whether a reply is asked, an octet 0 or
/// 1), the operation, the service contexts and, before version 1.2, the principal, which is ignored.
/// `NotForServer` for a Reply, a LocateReply or a MessageError. What stands behind the target of a
/// LocateRequest, behind the id of a CancelRequest, or behind the header of a CloseConnection, is ignored.
pub fn view_call(message: &Message) -> Result<Seen<'_>, ViewFault>
    ensures call { IfOk result (λ seen. CallOf message.now.bytes (Ok (asked_by seen))) }
    ensures fault { IfErr result (λ fault. CallOf message.now.bytes (Err (told_by fault))) }
    // Each part is the slice of the message at the place that the spelling gives it.
    ensures lent { IfOk result (λ seen. LendsParts message.now.bytes (asked_by seen)) }
    // What the message gives is answered, and nothing else.
    ensures only { (answer : Result IncomingData MsgFaultData) → CallOf message.now.bytes answer
        → answer_of result ≡ answer }
{
    view_message(message.bytes())
}

// What a message of these bytes asks.
fn view_message<'a>(bytes: &'a [u8]) -> Result<Seen<'a>, ViewFault>
    requires { IsMessage bytes.now }
    ensures call { IfOk result (λ seen. CallOf bytes.now (Ok (asked_by seen))) }
    ensures fault { IfErr result (λ fault. CallOf bytes.now (Err (told_by fault))) }
{
    match bytes[7] {
        REQUEST => Ok(view_request(bytes)?),
        CANCEL_REQUEST => Ok(Seen::Cancel {
            id: view_id(bytes)?,
        }),
        LOCATE_REQUEST => Ok(view_locate(bytes)?),
        CLOSE_CONNECTION => Ok(Seen::Closing),
        _ => Err(ViewFault::NotForServer),
    }
}

// The id with which the fields of a message begin.
fn view_id(bytes: &[u8]) -> Result<u32, Unreadable>
    requires { HEADER ≤ length bytes.now }
    ensures ok { IfOk result (λ id. HasId id bytes.now) }
    ensures bad { OnErr result ((id : ℕ) → HasId id bytes.now → ⊥) }
{
    let mut view = enter(bytes);
    match view.ulong() {
        Ok(id) => Ok(id),
        Err(_) => Err(Unreadable),
    }
}

/// A view of the fields behind the header, in the message's byte order.
pub(crate) fn enter<'a>(bytes: &'a [u8]) -> View<'a>
    requires { HEADER ≤ length bytes.now }
    ensures { result ≡ fields_start bytes.now }
{
    let (_, fields) = bytes.split_at(HEADER as usize);
    View::new(fields, is_little(bytes), HEADER)
}

/// The minor version of the message.
pub(crate) fn minor_of(bytes: &[u8]) -> u8
    requires { HEADER ≤ length bytes.now }
    ensures { result ≡ version_of bytes.now }
{
    bytes[5]
}

/// Whether the message is little-endian: bit 0 of its flags.
#[tactic(auto, unfolding(giop_frame::specs::Part::is_little))]
pub(crate) fn is_little(bytes: &[u8]) -> bool
    requires { HEADER ≤ length bytes.now }
    ensures { result ≡ little_flag bytes.now }
{
    bytes[6] & 1 == 1
}
