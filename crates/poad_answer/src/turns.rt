//! The turns of worker 0, and the replies that are decided then.
ghost use Rattle.std.specs.Prelude.{◌<◌, IfOk, OnOk};
ghost use Rattle.giop_answer.specs.Reply.{reply_bytes};
ghost use Rattle.poad_answer.specs.Serving.{IsServing};
ghost use Rattle.replay_run.specs.Collecting.{CollectsAll};
ghost use Rattle.poad_answer.specs.Serving.{Works};

use poa_base::WantMemory;
use poa_core::{Collected, Core, StepOut};
use session_laws::put_reply;
use std::alloc::Global;

/// How many bytes the replies to a message have mostly: those of one with a number or a short text.
const REPLY: usize = 64;

/// Worker 0 takes turns until it has nothing to do.
pub(crate) fn take_turns(core: &mut Core) -> Result<(), WantMemory>
    requires { IsServing core.old.history }
    ensures works { OnOk result (Works core.old core.new) }
    ensures serving { IsServing core.new.history }
{
    // No memory holds so many entries.
    for _ in 0..u64::MAX {
        match core.step(0)? {
            StepOut::Did(_) => {}
            StepOut::Idle { .. } | StepOut::Stopped => return Ok(()),
        }
    }
    Err(WantMemory)
}

/// The bytes of the replies that the one connection is owed now, one behind the other.
pub(crate) fn collected(alloc: Global, core: &mut Core) -> Result<Vec<u8>, WantMemory>
    requires { IsServing core.old.history }
    ensures collects { IfOk result
        (λ bytes. CollectsAll reply_bytes 0 core.old bytes.items core.new) }
    ensures serving { IsServing core.new.history }
{
    let mut bytes = Vec::with_capacity(alloc, REPLY)?;
    // No memory holds so many replies.
    for _ in 0..u64::MAX {
        match core.collect(0) {
            Collected::Reply { head, reply, .. } => put_reply(alloc, &mut bytes, &head, &reply)?,
            Collected::Nothing { .. } => return Ok(bytes),
        }
    }
    Err(WantMemory)
}
