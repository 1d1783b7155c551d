//! A run of a configuration answers, by its one connection and its one worker.
ghost use Rattle.std.specs.Prelude.{OnErr, OnOk, ◌≡◌};
ghost use Rattle.poa_history.specs.Legal.{IsSize};
ghost use Rattle.poad_answer.specs.Meaning.{Answers};
ghost use Rattle.poad_answer.specs.Serving.{GivesReplies, IsServing, by_core};
ghost use Rattle.session_laws.specs.Calls.{IsHeaded};

use crate::answerer::Answerer;
use crate::turns::{collected, take_turns};
use poa_base::{Call, WantMemory};
use poa_core::{ArriveFault, Core};
use std::alloc::Global;

impl Answerer for Core {
    ghost meaning = { by_core };

    fn answer(
        &mut self,
        alloc: Global,
        call: Call,
        size: u64,
        replies: &mut Vec<u8>,
    ) -> Result<(), ArriveFault> {
        let answered = answer_call(alloc, self, call, size, replies);
        // For its clauses: the history so far is legal.
        self.keeps_laws();
        answered
    }
}

// The call arrives, and is served.
fn answer_call(
    alloc: Global,
    core: &mut Core,
    call: Call,
    size: u64,
    replies: &mut Vec<u8>,
) -> Result<(), ArriveFault>
    requires serving { IsServing core.old.history }
    requires headed { IsHeaded call }
    requires sized { IsSize size }
    ensures answers { Answers by_core result call size core.old core.new replies.old.items
        replies.new.items }
    ensures serving { IsServing core.new.history }
{
    match core.arrive(0, call, size) {
        Ok(_) => {
            let Ok(()) = serve_arrived(alloc, core, replies) else {
                return Err(ArriveFault::WantMemory);
            };
            Ok(())
        }
        Err(fault) => Err(fault),
    }
}

// Worker 0 takes its turns, and the replies that are decided then stand behind `replies`.
fn serve_arrived(alloc: Global, core: &mut Core, replies: &mut Vec<u8>) -> Result<(), WantMemory>
    requires { IsServing core.old.history }
    ensures gives { OnOk result
        (GivesReplies core.old core.new replies.old.items replies.new.items) }
    ensures same { OnErr result (replies.new.items ≡ replies.old.items) }
    ensures serving { IsServing core.new.history }
{
    take_turns(core)?;
    let bytes = collected(alloc, core)?;
    replies.extend_from_slice(bytes.as_slice())
}
