//! What a message says to a request.
ghost use Rattle.std.specs.Prelude.{◌≡◌, ◌≢◌, ◌≤◌, None, IfOk, IfErr, OnOk, MatchOption, length};
ghost use Rattle.giop_msg.specs.Header.{message_type};
ghost use Rattle.giop_client.specs.declared.hop.Hop.{Hop as HopData};
ghost use Rattle.giop_client.specs.Reply.{Answers, Tells, TellsUser, TellsSystem, TellsForward, MessageSays};
ghost use Rattle.giop_client.specs.Reading.{seen_body};

use crate::body_view::BodyView;
use crate::hop::Hop;
use crate::reply::view_reply;
use crate::reply_kind::ReplyKind;
use cdr_core::{CdrFault, WantMemory};
use giop_answer::kind::{CLOSE_CONNECTION, HEADER, MESSAGE_ERROR, REPLY};
use giop_frame::Message;
use ior_text::read_reference;
use poa_base::Bytes;
use std::alloc::Global;

/// What the message says to the request of this id. The reply is read where it lies; what of it outlives the message is
/// copied.
pub(crate) fn read_hop(alloc: Global, message: &Message, id: u32) -> Result<Hop, WantMemory>
    ensures { IfOk result (λ said. MessageSays id message.now.bytes said) }
{
    let bytes = message.bytes();
    match bytes[7] {
        REPLY => read_reply(alloc, bytes, id),
        CLOSE_CONNECTION | MESSAGE_ERROR => Ok(Hop::Closed),
        _ => Ok(Hop::BadReply),
    }
}

// What a Reply says to the request of this id.
fn read_reply(alloc: Global, bytes: &[u8], id: u32) -> Result<Hop, WantMemory>
    requires whole { HEADER ≤ length bytes.now }
    requires reply { message_type bytes.now ≡ REPLY }
    ensures { IfOk result (λ said. MessageSays id bytes.now said) }
{
    match read_answer(alloc, bytes, id) {
        Ok(Some(said)) => Ok(said),
        Ok(None) => Ok(Hop::BadReply),
        Err(WantMemory) => Err(WantMemory),
    }
}

// The answer to the request of this id that a Reply is, if it is one.
fn read_answer(alloc: Global, bytes: &[u8], id: u32) -> Result<Option<Hop>, WantMemory>
    requires whole { HEADER ≤ length bytes.now }
    requires reply { message_type bytes.now ≡ REPLY }
    ensures { IfOk result
        (λ found. MatchOption found ((said : HopData) → Answers id bytes.now said → ⊥)
        (λ said. Answers id bytes.now said)) }
{
    let Ok(reply) = view_reply(bytes) else {
        return Ok(None);
    };
    if reply.id != id {
        return Ok(None);
    }
    let Some(kind) = ReplyKind::of(reply.status) else {
        return Ok(None);
    };
    match read_told(alloc, kind, reply.body) {
        Ok(said) => Ok(Some(said)),
        Err(fault) => unreadable(fault),
    }
}

// No answer, unless it was memory that lacked.
fn unreadable(fault: CdrFault) -> Result<Option<Hop>, WantMemory>
    ensures none { IfOk result (λ said. said ≡ None) }
    ensures other { OnOk result (fault ≢ CdrFault.WantMemory) }
{
    match fault {
        CdrFault::WantMemory => Err(WantMemory),
        _ => Ok(None),
    }
}

// What a Reply of this kind with this body says.
fn read_told(alloc: Global, kind: ReplyKind, body: BodyView<'_>) -> Result<Hop, CdrFault>
    ensures ok { IfOk result (λ said. Tells kind (seen_body body.entry) said) }
    ensures bad { IfErr result
        (λ fault. fault ≢ CdrFault.WantMemory → (said : HopData)
        → Tells kind (seen_body body.entry) said → ⊥) }
{
    match kind {
        ReplyKind::NoException => Ok(Hop::Result {
            body: body.copy(alloc)?,
        }),
        ReplyKind::UserException => read_user(alloc, body),
        ReplyKind::SystemException => read_system(alloc, body),
        ReplyKind::LocationForward => read_forward(alloc, body),
    }
}

// A user exception, whose members aren't read.
fn read_user(alloc: Global, body: BodyView<'_>) -> Result<Hop, CdrFault>
    ensures ok { IfOk result (λ said. TellsUser (seen_body body.entry) said) }
    ensures bad { IfErr result
        (λ fault. fault ≢ CdrFault.WantMemory → (said : HopData)
        → TellsUser (seen_body body.entry) said → ⊥) }
{
    let mut reader = body.reader();
    let id = Bytes::from_vec(reader.text(alloc)?);
    Ok(Hop::User { id })
}

// A system exception.
fn read_system(alloc: Global, body: BodyView<'_>) -> Result<Hop, CdrFault>
    ensures ok { IfOk result (λ said. TellsSystem (seen_body body.entry) said) }
    ensures bad { IfErr result
        (λ fault. fault ≢ CdrFault.WantMemory → (said : HopData)
        → TellsSystem (seen_body body.entry) said → ⊥) }
{
    let mut reader = body.reader();
    let id = Bytes::from_vec(reader.text(alloc)?);
    let minor = reader.ulong()?;
    let done = reader.ulong()?;
    Ok(Hop::System { id, minor, done })
}

// A forward.
fn read_forward(alloc: Global, body: BodyView<'_>) -> Result<Hop, CdrFault>
    ensures ok { IfOk result (λ said. TellsForward (seen_body body.entry) said) }
    ensures bad { IfErr result
        (λ fault. fault ≢ CdrFault.WantMemory → (said : HopData)
        → TellsForward (seen_body body.entry) said → ⊥) }
{
    let mut reader = body.reader();
    let ior = read_reference(alloc, &mut reader)?;
    Ok(Hop::Forward { ior })
}
