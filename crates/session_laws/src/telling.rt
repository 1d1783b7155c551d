//! What tells a peer a reply.
ghost use Rattle.std.specs.Prelude.{◌≡◌, ◌++◌, OnOk};
ghost use Rattle.session_laws.specs.Calls.{IsGivenTo};
ghost use Rattle.session_laws.specs.Records.{told};

use crate::putting::put_reply;
use admin_line::write_answer;
use poa_base::{Head, Reply, WantMemory};
use std::alloc::Global;

/// Puts what tells a peer a reply behind other bytes: the message that answers its call, or the line that answers its line.
pub fn tell(
    alloc: Global,
    replies: &mut Vec<u8>,
    head: &Head,
    reply: &Reply,
) -> Result<(), WantMemory>
    requires { IsGivenTo head.now reply.now }
    ensures { OnOk result (replies.new.items ≡ replies.old.items ++ told head.now reply.now) }
{
    if let Reply::Answer { number, answer } = reply {
        let line = write_answer(alloc, *number, answer)?;
        replies.extend_from_slice(line.as_slice())?;
        return replies.extend_from_slice(b"\n");
    }
    put_reply(alloc, replies, head, reply)
}
