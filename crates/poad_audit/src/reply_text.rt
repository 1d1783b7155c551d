//! A reply that is taken for writing, in words.
ghost use Rattle.std.specs.Prelude.{◌≡◌, ◌++◌, IfOk, OnOk, Some};
ghost use Rattle.poa_base.specs.declared.Outcome.TheVariants as outcomes;
ghost use Rattle.poad_audit.specs.Replies as printed;

use crate::verdict_text::{answered_text, exception_text, fixed, forwarded_text};
use poa_base::{Bytes, Datum, Outcome, Reply, WantMemory};
use poad_files::put_printed;
use std::alloc::Global;
use text_words::put_octets;

/// That this reply was taken for writing.
pub(crate) fn collected_text(alloc: Global, reply: &Reply) -> Result<Bytes, WantMemory>
    ensures { IfOk result (λ text. text ≡ printed.collected_text reply.now) }
{
    let text = reply_text(alloc, reply)?;
    let head = fixed(alloc, "its reply was taken for writing: ")?;
    let mut out = head.into_vec();
    out.extend_from_slice(text.as_slice())?;
    Ok(Bytes::from_vec(out))
}

fn reply_text(alloc: Global, reply: &Reply) -> Result<Bytes, WantMemory>
    ensures { IfOk result (λ text. text ≡ printed.reply_text reply.now) }
{
    match reply {
        Reply::Outcome(outcome) => outcome_text(alloc, outcome),
        Reply::Forward { endpoint, .. } => forwarded_text(alloc, endpoint),
        Reply::Addressing => fixed(alloc, "asked for the whole reference"),
        Reply::Here => fixed(alloc, "answered that the object is here"),
        Reply::UnknownObject => fixed(alloc, "answered that the object is unknown"),
        Reply::Answer { answer, .. } => answered_text(alloc, answer),
    }
}

/// How the operation ended.
fn outcome_text(alloc: Global, outcome: &Outcome) -> Result<Bytes, WantMemory>
    ensures { IfOk result (λ text. text ≡ printed.outcome_text outcome.now) }
{
    match outcome {
        Outcome::Value(None) => fixed(alloc, "NO_EXCEPTION"),
        Outcome::Value(Some(value)) => value_text(alloc, value),
        Outcome::User(id) => user_text(alloc, id),
        Outcome::System(exception) => exception_text(alloc, *exception),
    }
}

fn value_text(alloc: Global, value: &Datum) -> Result<Bytes, WantMemory>
    ensures { IfOk result (λ text. text ≡ printed.value_text (Some value.now)) }
{
    let mut out = Vec::from_slice(alloc, b"NO_EXCEPTION")?;
    put_datum(alloc, &mut out, value)?;
    Ok(Bytes::from_vec(out))
}

fn user_text(alloc: Global, id: &Bytes) -> Result<Bytes, WantMemory>
    ensures { IfOk result (λ text. text ≡ printed.outcome_text (outcomes.User id.now)) }
{
    let mut out = Vec::from_slice(alloc, b"USER_EXCEPTION ")?;
    put_printed(&mut out, id.as_slice())?;
    Ok(Bytes::from_vec(out))
}

/// Adds a result, behind a space: the letter of its kind, and the value.
fn put_datum(alloc: Global, out: &mut Vec<u8>, value: &Datum) -> Result<(), WantMemory>
    ensures { OnOk result (out.new.items ≡ out.old.items ++ printed.datum_text value.now) }
{
    match value {
        Datum::Long(n) => out.extend_from_slice(format!(in alloc; " i:{n}")?.as_bytes()),
        Datum::Ulong(n) => out.extend_from_slice(format!(in alloc; " u:{n}")?.as_bytes()),
        Datum::Flag(true) => out.extend_from_slice(b" b:true"),
        Datum::Flag(false) => out.extend_from_slice(b" b:false"),
        Datum::Octets(bytes) => put_octets(out, b"o:", bytes.as_slice()),
        Datum::Text(bytes) => {
            out.extend_from_slice(b" s:")?;
            put_printed(out, bytes.as_slice())
        }
    }
}
