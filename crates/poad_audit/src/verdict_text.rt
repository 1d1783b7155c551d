//! A verdict on a call, in words.
ghost use Rattle.std.specs.Prelude.{◌≡◌, ◌++◌, IfOk, decimal, option_copied};
ghost use Rattle.poa_journal.specs.ValueWords.{exception_word};
ghost use Rattle.poad_audit.specs.Verdicts as printed;

use crate::servant_text::put_service;
use admin_line::put_answer;
use journal_explain::Service;
use poa_base::{Answer, Bytes, Endpoint, ExcName, Name, SysExc, Verdict, WantMemory};
use std::alloc::Global;
use text_words::{put_endpoint, put_minor};

/// What was decided with an admission.
fn verdict_text(alloc: Global, verdict: &Verdict) -> Result<Bytes, WantMemory>
    ensures { IfOk result (λ text. text ≡ printed.verdict_text verdict.now) }
{
    match verdict {
        Verdict::Serve(number) => numbered(alloc, "served by activation ", *number),
        Verdict::Preset(servant) => named(alloc, "served by the default servant ", servant),
        Verdict::Locator(servant) => named(alloc, "served by the located servant ", servant),
        Verdict::Incarnate(number) => numbered(alloc, "begins activation ", *number),
        Verdict::Try => fixed(alloc, "waits for the adapter activator"),
        Verdict::Refuse(exception) => refused_text(alloc, *exception),
        Verdict::Forward(endpoint) => forwarded_text(alloc, endpoint),
        Verdict::Addressing => fixed(alloc, "asked for the whole reference"),
        Verdict::Here => fixed(alloc, "answered that the object is here"),
        Verdict::Unknown => fixed(alloc, "answered that the object is unknown"),
        Verdict::Answer(answer) => answered_text(alloc, answer),
        Verdict::Wait => fixed(alloc, "done, and its answer waits"),
    }
}

/// The same, and what is told of the activation that serves the call.
pub(crate) fn decided_text(
    alloc: Global,
    verdict: &Verdict,
    service: Option<&Service>,
) -> Result<Bytes, WantMemory>
    ensures { IfOk result (λ text. text
        ≡ printed.decided_text verdict.now (option_copied service.entry)) }
{
    let decided = verdict_text(alloc, verdict)?;
    let mut out = decided.into_vec();
    put_service(alloc, &mut out, service)?;
    Ok(Bytes::from_vec(out))
}

/// A text that is always the same.
pub(crate) fn fixed(alloc: Global, text: &str) -> Result<Bytes, WantMemory>
    ensures { IfOk result (λ bytes. bytes ≡ text.now) }
{
    Ok(Bytes::from_vec(Vec::from_slice(alloc, text.as_bytes())?))
}

fn numbered(alloc: Global, front: &str, number: u32) -> Result<Bytes, WantMemory>
    ensures { IfOk result (λ text. text ≡ front.now ++ decimal number) }
{
    let text = format!(in alloc; "{front}{number}")?;
    Ok(Bytes::from_vec(text.into_bytes()))
}

/// A name behind a text.
pub(crate) fn named(alloc: Global, front: &str, name: &Name) -> Result<Bytes, WantMemory>
    ensures { IfOk result (λ text. text ≡ front.now ++ name.now) }
{
    let mut out = Vec::from_slice(alloc, front.as_bytes())?;
    out.extend_from_slice(name.as_slice())?;
    Ok(Bytes::from_vec(out))
}

fn refused_text(alloc: Global, exception: SysExc) -> Result<Bytes, WantMemory>
    ensures { IfOk result (λ text. text ≡ printed.refused_text exception) }
{
    let name = exception_text(alloc, exception)?;
    let mut out = Vec::from_slice(alloc, b"refused: ")?;
    out.extend_from_slice(name.as_slice())?;
    Ok(Bytes::from_vec(out))
}

/// The standard name of an exception with its minor code.
pub(crate) fn exception_text(alloc: Global, exception: SysExc) -> Result<Bytes, WantMemory>
    ensures { IfOk result (λ text. text ≡ printed.exception_text exception) }
{
    let name = name_of(exception.name);
    let head = format!(in alloc; "{name} minor")?;
    let mut out = head.into_bytes();
    put_minor(&mut out, exception.minor)?;
    Ok(Bytes::from_vec(out))
}

/// The standard name of an exception.
#[tactic(auto, unfolding(poa_journal::specs::ValueWords::exception_word))]
fn name_of(name: ExcName) -> &'static str
    ensures { result.now ≡ exception_word name }
{
    match name {
        ExcName::ObjectNotExist => "OBJECT_NOT_EXIST",
        ExcName::Transient => "TRANSIENT",
        ExcName::ObjAdapter => "OBJ_ADAPTER",
        ExcName::BadOperation => "BAD_OPERATION",
        ExcName::Marshal => "MARSHAL",
        ExcName::Unknown => "UNKNOWN",
    }
}

pub(crate) fn forwarded_text(alloc: Global, endpoint: &Endpoint) -> Result<Bytes, WantMemory>
    ensures { IfOk result (λ text. text ≡ printed.forwarded_text endpoint.now) }
{
    let mut out = Vec::from_slice(alloc, b"forwarded to")?;
    put_endpoint(&mut out, endpoint)?;
    Ok(Bytes::from_vec(out))
}

pub(crate) fn answered_text(alloc: Global, answer: &Answer) -> Result<Bytes, WantMemory>
    ensures { IfOk result (λ text. text ≡ printed.answered_text answer.now) }
{
    let mut out = Vec::from_slice(alloc, b"answered")?;
    put_answer(&mut out, answer)?;
    Ok(Bytes::from_vec(out))
}
