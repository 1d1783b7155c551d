//! The call of a message, which outlives the message.
ghost use Rattle.std.specs.Prelude.{◌≡◌, ◌⊎◌, Result, Ok, Err, IfOk, IfErr, option_map};
ghost use Rattle.poa_base.specs.declared.Ask.{Ask};
ghost use Rattle.giop_msg.specs.declared.incoming.Incoming.{Incoming as IncomingData};
ghost use Rattle.giop_msg.specs.declared.fault.MsgFault.{MsgFault as MsgFaultData};
ghost use Rattle.giop_msg.specs.Call.{CallOf};
ghost use Rattle.giop_msg.specs.Ask.{request_bytes, call_of, IsAsk};
ghost use Rattle.giop_msg.specs.Seen.{asked_by};

use crate::fault::MsgFault;
use crate::incoming::Incoming;
use crate::seen::Seen;
use crate::viewing::view_call;
use giop_frame::Message;
use poa_base::{Body, Bytes, Call, WantMemory};
use std::alloc::Global;

/// What a message asks of a server, as `view_call` gives it, with one copy of each part.
///
/// `Malformed` and `NotForServer` where `view_call` answers so. `WantMemory` where no memory was left.
pub fn read_call(alloc: Global, message: &Message) -> Result<Incoming, MsgFault>
    ensures call { IfOk result (λ asked. CallOf message.now.bytes (Ok asked)) }
    ensures fault { IfErr result
        (λ fault. (fault ≡ MsgFault.WantMemory) ⊎ CallOf message.now.bytes (Err fault)) }
    // What the message gives is answered, and nothing else, unless memory runs out.
    ensures only { (answer : Result IncomingData MsgFaultData) → CallOf message.now.bytes answer
        → (result ≡ answer) ⊎ (result ≡ Err MsgFault.WantMemory) }
    // A Request that was written is read as the call that it was written for, unless memory runs out.
    ensures back { (ask : Ask) → IsAsk ask → message.now.bytes ≡ request_bytes ask
        → (result ≡ Ok (Incoming.Call (call_of ask))) ⊎ (result ≡ Err MsgFault.WantMemory) }
{
    read_message(alloc, message)
}

// What a message asks, with one copy of each part.
fn read_message(alloc: Global, message: &Message) -> Result<Incoming, MsgFault>
    ensures call { IfOk result (λ asked. CallOf message.now.bytes (Ok asked)) }
    ensures fault { IfErr result
        (λ fault. (fault ≡ MsgFault.WantMemory) ⊎ CallOf message.now.bytes (Err fault)) }
{
    let seen = view_call(message)?;
    let asked = copy_seen(alloc, seen)?;
    Ok(asked)
}

// What is seen, with one copy of each part.
fn copy_seen(alloc: Global, seen: Seen<'_>) -> Result<Incoming, WantMemory>
    ensures { IfOk result (λ asked. asked ≡ asked_by seen.entry) }
{
    match seen {
        Seen::Request {
            head,
            target,
            operation,
            body,
            base,
        } => Ok(Incoming::Call(Call::Request {
            head,
            target: copy_key(alloc, target)?,
            operation: Bytes::copy_of(alloc, operation)?,
            body: Body {
                bytes: Bytes::copy_of(alloc, body)?,
                little: head.little,
                base,
            },
        })),
        Seen::Locate { head, target } => Ok(Incoming::Call(Call::Locate {
            head,
            target: copy_key(alloc, target)?,
        })),
        Seen::Cancel { id } => Ok(Incoming::Cancel { id }),
        Seen::Closing => Ok(Incoming::Closing),
    }
}

// A copy of a key, where there is one.
fn copy_key(alloc: Global, key: Option<&[u8]>) -> Result<Option<Bytes>, WantMemory>
    ensures { IfOk result (λ copy. copy ≡ option_map (λ k. k.now) key.entry) }
{
    match key {
        Some(key) => Ok(Some(Bytes::copy_of(alloc, key)?)),
        None => Ok(None),
    }
}
