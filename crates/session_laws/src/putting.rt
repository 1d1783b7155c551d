//! A reply behind other bytes.
ghost use Rattle.std.specs.Prelude.{◌≡◌, ◌++◌, OnOk};
ghost use Rattle.giop_answer.specs.Reply.{reply_bytes};
ghost use Rattle.session_laws.specs.Calls.{IsReplyTo};

use poa_base::{Head, Reply, WantMemory};
use std::alloc::Global;

/// Puts the message that answers a call, of which the head is kept, behind others: CORBA 3.3 Part 2, 9.4.3 and 9.4.6.
pub fn put_reply(
    alloc: Global,
    out: &mut Vec<u8>,
    head: &Head,
    reply: &Reply,
) -> Result<(), WantMemory>
    requires { IsReplyTo head.now reply.now }
    ensures { OnOk result (out.new.items ≡ out.old.items ++ reply_bytes head.now reply.now) }
{
    giop_answer::put_reply(alloc, out, head, reply)
}
