//! Calls, served.
ghost use Rattle.std.specs.Prelude.{◌≡◌, ◌≢◌, ◌≤◌, ◌++◌, [], IfOk, OnOk, OnErr, IsFalse, if◌then◌else◌};
ghost use Rattle.naming_context.specs.declared.answer.Answer.TheVariants.{Outcome};
ghost use Rattle.naming_context.specs.Kept.{standing_of};
ghost use Rattle.naming_context.specs.Outcomes as outcomes;
ghost use Rattle.naming_context.specs.Replies.{answer_bytes, asks_reply};
ghost use Rattle.naming_context.specs.Serving.{IsDoneAt, IsDoneBy, IsHeaded, IsPlace, Locates, Operates, ServesCall};

use crate::answer::Answer;
use crate::argument::read_asked;
use crate::contexts::Contexts;
use crate::operation::Operation;
use crate::outcomes::{bad_arguments, no_context, no_key, unknown_operation};
use crate::reached::Reached;
use crate::replying::put_answer;
use cdr_core::CdrFault;
use giop_answer::kind::MINOR;
use giop_answer::put_reply;
use poa_base::{Body, Bytes, Call, Head, Reply, WantMemory};
use std::alloc::Global;

impl Contexts {
    /// Serves a call, and puts its reply, where it asks one, behind others. Where memory is wanting these are as they were.
    pub fn serve(&mut self, alloc: Global, call: &Call, out: &mut Vec<u8>) -> Result<(), WantMemory>
        requires { IsHeaded call.now }
        ensures ok { OnOk result
            (ServesCall call.now (standing_of self.old) (standing_of self.new) out.old.items
            out.new.items) }
        ensures err { OnErr result (out.new.items ≡ out.old.items) }
    {
        match call {
            Call::Request {
                head,
                target,
                operation,
                body,
            } => {
                let answer = self.answer(alloc, target, operation.as_slice(), body)?;
                put_asked(alloc, out, head, answer)
            }
            Call::Locate { head, target } => { put_reply(alloc, out, head, &self.locate(target)) }
            // No message makes one.
            Call::Line { .. } => Ok(()),
        }
    }

    // Does what a request asks.
    fn answer(
        &mut self,
        alloc: Global,
        target: &Option<Bytes>,
        word: &[u8],
        body: &Body,
    ) -> Result<Answer, WantMemory>
        ensures { IfOk result
            (λ answer. IsDoneBy target.now word.now body.now (standing_of self.old) answer
            (standing_of self.new)) }
    {
        match target {
            None => Ok(Answer::Addressing),
            Some(key) => {
                let reached = Reached::by(key.as_slice(), self.made());
                self.answer_at(alloc, reached, word, body)
            }
        }
    }

    // The same of what its key leads to.
    fn answer_at(
        &mut self,
        alloc: Global,
        reached: Reached,
        word: &[u8],
        body: &Body,
    ) -> Result<Answer, WantMemory>
        ensures { IfOk result
            (λ answer. IsDoneAt reached word.now body.now (standing_of self.old) answer
            (standing_of self.new)) }
    {
        match reached {
            Reached::NoKey => Ok(Answer::Outcome(no_key())),
            Reached::NoContext => Ok(Answer::Outcome(no_context())),
            Reached::Context(number) => match Operation::of(word) {
                Some(operation) => self.operate(alloc, number, operation, body),
                None => Ok(Answer::Outcome(unknown_operation())),
            },
        }
    }

    // Does an operation of a context, where its arguments can be read.
    fn operate(
        &mut self,
        alloc: Global,
        context: u32,
        operation: Operation,
        body: &Body,
    ) -> Result<Answer, WantMemory>
        ensures { IfOk result
            (λ answer. Operates operation context body.now (standing_of self.old) answer
            (standing_of self.new)) }
    {
        match read_asked(alloc, operation, body) {
            Ok(asked) => self.act(alloc, context, asked),
            Err(fault) => unreadable(fault),
        }
    }

    // The reply to a locate.
    fn locate(&self, target: &Option<Bytes>) -> Reply
        ensures tells { Locates (standing_of self.now) target.now result }
        ensures place { IsPlace result }
    {
        let Some(key) = target else {
            return Reply::Addressing;
        };
        match Reached::by(key.as_slice(), self.made()) {
            Reached::Context(_) => Reply::Here,
            Reached::NoContext | Reached::NoKey => Reply::UnknownObject,
        }
    }
}

// The arguments can't be read, unless it was memory that lacked.
fn unreadable(fault: CdrFault) -> Result<Answer, WantMemory>
    ensures refused { IfOk result (λ answer. answer ≡ Outcome outcomes.bad_arguments) }
    ensures other { OnOk result (fault ≢ CdrFault.WantMemory) }
{
    match fault {
        CdrFault::WantMemory => Err(WantMemory),
        _ => Ok(Answer::Outcome(bad_arguments())),
    }
}

// Puts the reply to a request behind others, where it asks one.
fn put_asked(
    alloc: Global,
    out: &mut Vec<u8>,
    head: &Head,
    answer: Answer,
) -> Result<(), WantMemory>
    requires minor { head.now.minor ≤ MINOR }
    requires request { IsFalse head.now.locate }
    ensures ok { OnOk result
        (out.new.items ≡ out.old.items
        ++ (if asks_reply head.now then answer_bytes head.now answer else [])) }
    ensures err { OnErr result (out.new.items ≡ out.old.items) }
{
    if head.flags % 2 == 1 {
        put_answer(alloc, out, head, answer)
    } else {
        Ok(())
    }
}
