//! The replies of verdicts, of commands that waited and of incarnations.
ghost use Rattle.std.specs.Prelude.{◌≡◌, option_copied, IfOk};
ghost use Rattle.poa_base.specs.declared.Answer.{Answer};
ghost use Rattle.poa_base.specs.declared.Reply.{Reply};
ghost use Rattle.poa_history.specs.Replies as replies;

use crate::exceptions::{SERVANT_DOUBLE, number_of, raised_to};
use crate::forwards::forwarded_to;
use poa_base::{Answer, Call, Incarnation, Reply, Verdict, WantMemory};
use std::alloc::Global;

/// The answer to a command that waited.
pub fn good(call: Option<&Call>) -> Reply
    ensures { result ≡ Reply.Answer (replies.number_of (option_copied call.entry)) Answer.Good }
{
    Reply::Answer {
        number: number_of(call),
        answer: Answer::Good,
    }
}

/// The reply that a verdict fixes; none where the call goes on.
pub fn reply_admitted(
    alloc: Global,
    call: Option<&Call>,
    verdict: &Verdict,
) -> Result<Option<Reply>, WantMemory>
    ensures { IfOk result
        (λ reply. reply ≡ replies.reply_admitted (option_copied call.entry) verdict.now) }
{
    match verdict {
        Verdict::Refuse(exception) => Ok(Some(raised_to(call, *exception))),
        Verdict::Forward(endpoint) => Ok(Some(forwarded_to(alloc, call, endpoint)?)),
        Verdict::Addressing => Ok(Some(Reply::Addressing)),
        Verdict::Here => Ok(Some(Reply::Here)),
        Verdict::Unknown => Ok(Some(Reply::UnknownObject)),
        Verdict::Answer(answer) => Ok(Some(Reply::Answer {
            number: number_of(call),
            answer: answer.clone()?,
        })),
        Verdict::Wait => Ok(Some(good(call))),
        Verdict::Serve(_)
        | Verdict::Preset(_)
        | Verdict::Locator(_)
        | Verdict::Incarnate(_)
        | Verdict::Try => Ok(None),
    }
}

/// The reply that the servant activator's answer fixes; none where it brought a servant.
pub fn reply_incarnated(
    alloc: Global,
    call: Option<&Call>,
    answer: &Incarnation,
) -> Result<Option<Reply>, WantMemory>
    ensures { IfOk result
        (λ reply. reply ≡ replies.reply_incarnated (option_copied call.entry) answer.now) }
{
    match answer {
        Incarnation::Double => Ok(Some(raised_to(call, SERVANT_DOUBLE))),
        Incarnation::Forward(endpoint) => Ok(Some(forwarded_to(alloc, call, endpoint)?)),
        Incarnation::Raise(exception) => Ok(Some(raised_to(call, *exception))),
        Incarnation::Fresh(_) | Incarnation::Named(_) => Ok(None),
    }
}
