//! What is printed of calls.
ghost use Rattle.std.specs.Prelude.{◌≡◌, IfOk, ◌++◌, OnOk, option_copied, string_bytes};
ghost use Rattle.poad_audit.specs.Story as printed;

use crate::adapter_text::put_adapter;
use crate::call_text::put_call;
use crate::reply_text::collected_text;
use crate::row_text::reason_text;
use crate::servant_text::brought_text;
use crate::tenure_text::{held_since, ruler_text};
use crate::verdict_text::{decided_text, fixed};
use held_queue::Hold;
use journal_explain::{CallName, Event, Row, Service, Step, Tenure, Trail, Wait};
use poa_base::{Attempt, Bytes, Verdict, WantMemory};
use std::alloc::Global;

/// The stories of the calls that are asked for; the entries of their journal begin at this line.
pub(crate) fn calls_text(alloc: Global, line: u64, trails: &[Trail]) -> Result<Bytes, WantMemory>
    ensures { IfOk result (λ text. text ≡ printed.calls_text line trails.now) }
{
    if trails.is_empty() {
        return fixed(alloc, "no such call arrived\n");
    }
    let mut out = Vec::new(alloc);
    put_stories(alloc, &mut out, line, trails)?;
    Ok(Bytes::from_vec(out))
}

/// Adds the lines of the calls.
fn put_stories(
    alloc: Global,
    out: &mut Vec<u8>,
    line: u64,
    trails: &[Trail],
) -> Result<(), WantMemory>
    ensures { OnOk result (out.new.items ≡ out.old.items ++ printed.lines_by (printed.story_text line) trails.now) }
{
    for trail in trails {
        let text = story_text(alloc, line, trail)?;
        out.extend_from_slice(text.as_slice())?;
    }
    Ok(())
}

fn story_text(alloc: Global, line: u64, trail: &Trail) -> Result<Bytes, WantMemory>
    ensures { IfOk result (λ text. text ≡ printed.story_text line trail.now) }
{
    let head = head_line(alloc, trail.name, line)?;
    let mut out = head.into_bytes();
    put_call(alloc, &mut out, &trail.call)?;
    put_adapter(alloc, &mut out, trail.adapter.as_ref())?;
    put_steps(alloc, &mut out, trail.steps.as_slice())?;
    Ok(Bytes::from_vec(out))
}

fn head_line(alloc: Global, name: CallName, line: u64) -> Result<String, WantMemory>
    ensures { IfOk result (λ text. string_bytes text ≡ printed.head_line name line) }
{
    let (arrival, conn) = (name.arrival, name.conn);
    match name.id {
        Some(id) => Ok(format!(in alloc;
            "call {arrival}, id {id} of connection {conn}, entry 0 in line {line}\n"
        )?),
        None => Ok(format!(in alloc;
            "call {arrival}, a command of connection {conn}, entry 0 in line {line}\n"
        )?),
    }
}

/// Adds the lines of the steps.
fn put_steps(alloc: Global, out: &mut Vec<u8>, steps: &[Step]) -> Result<(), WantMemory>
    ensures { OnOk result (out.new.items ≡ out.old.items ++ printed.lines_by printed.step_line steps.now) }
{
    for step in steps {
        let line = step_line(alloc, step)?;
        out.extend_from_slice(line.as_slice())?;
    }
    Ok(())
}

fn step_line(alloc: Global, step: &Step) -> Result<Bytes, WantMemory>
    ensures { IfOk result (λ line. line ≡ printed.step_line step.now) }
{
    let entry = step.entry;
    let text = event_text(alloc, &step.event, step.tenure.as_ref())?;
    let head = format!(in alloc; "entry {entry} ")?;
    let mut out = head.into_bytes();
    out.extend_from_slice(text.as_slice())?;
    out.extend_from_slice(b"\n")?;
    Ok(Bytes::from_vec(out))
}

fn event_text(alloc: Global, event: &Event, tenure: Option<&Tenure>) -> Result<Bytes, WantMemory>
    ensures { IfOk result (λ text. text ≡ printed.event_text event.now (option_copied tenure.entry)) }
{
    match event {
        Event::Arrived => fixed(alloc, "arrived"),
        Event::Waits(wait) => waits_text(alloc, *wait, tenure),
        Event::Admitted {
            worker,
            row,
            verdict,
            service,
        } => admitted_text(alloc, *worker, *row, tenure, verdict, service.as_ref()),
        Event::Tried(answer) => attempt_text(alloc, *answer),
        Event::Incarnated { servant } => brought_text(alloc, servant.as_ref()),
        Event::Ran => fixed(alloc, "its servant ran"),
        Event::Ended => fixed(alloc, "the request ended"),
        Event::Collected(reply) => collected_text(alloc, reply),
        Event::Ends(number) => ends_text(alloc, *number),
    }
}

fn admitted_text(
    alloc: Global,
    worker: u32,
    row: Option<Row>,
    tenure: Option<&Tenure>,
    verdict: &Verdict,
    service: Option<&Service>,
) -> Result<Bytes, WantMemory>
    ensures { IfOk result (λ text. text
        ≡ printed.admitted_text worker row (option_copied tenure.entry) verdict.now
        (option_copied service.entry)) }
{
    let reason = fixed(alloc, reason_text(row))?;
    let ruler = ruler_text(alloc, tenure)?;
    let decided = decided_text(alloc, verdict, service)?;
    let mut out = admitted_head(alloc, worker)?;
    out.extend_from_slice(reason.as_slice())?;
    out.extend_from_slice(ruler.as_slice())?;
    out.extend_from_slice(b"; ")?;
    out.extend_from_slice(decided.as_slice())?;
    Ok(Bytes::from_vec(out))
}

fn admitted_head(alloc: Global, worker: u32) -> Result<Vec<u8>, WantMemory>
    ensures { IfOk result (λ out. out.items ≡ printed.admitted_head worker) }
{
    let head = format!(in alloc; "admitted by worker {worker}: ")?;
    Ok(head.into_bytes())
}

/// That the activation which serves a call isn't active any more.
fn ends_text(alloc: Global, number: u32) -> Result<Bytes, WantMemory>
    ensures { IfOk result (λ text. text ≡ printed.ends_text number) }
{
    let text = format!(in alloc; "activation {number} is ending")?;
    Ok(Bytes::from_vec(text.into_bytes()))
}

/// What a call waits for, and since when that holds it, where it can be set.
fn waits_text(alloc: Global, wait: Wait, tenure: Option<&Tenure>) -> Result<Bytes, WantMemory>
    ensures { IfOk result (λ text. text ≡ printed.waits_text wait (option_copied tenure.entry)) }
{
    let held = wait_text(alloc, wait)?;
    let since = held_since(alloc, tenure)?;
    let mut out = Vec::new(alloc);
    out.extend_from_slice(held.as_slice())?;
    out.extend_from_slice(since.as_slice())?;
    Ok(Bytes::from_vec(out))
}

fn wait_text(alloc: Global, wait: Wait) -> Result<Bytes, WantMemory>
    ensures { IfOk result (λ text. text ≡ printed.wait_text wait) }
{
    match wait {
        Wait::Worker => fixed(alloc, "waits for a worker"),
        Wait::Held(hold) => hold_text(alloc, hold),
    }
}

pub(crate) fn hold_text(alloc: Global, hold: Hold) -> Result<Bytes, WantMemory>
    ensures { IfOk result (λ text. text ≡ printed.hold_text hold) }
{
    let text = match hold {
        Hold::Manager(m) => format!(in alloc; "held: manager {m} is HOLDING")?,
        Hold::Trial(k) => {
            format!(in alloc; "held: a trial of a child of adapter {k} is in flight")?
        }
        Hold::Turn(k) => format!(in alloc; "held: another request is in flight in adapter {k}")?,
        Hold::Main => format!(in alloc; "held: the first worker alone may take it")?,
        Hold::Id(n) => {
            format!(in alloc; "held: activation {n} of its object is on its way in or out")?
        }
        Hold::Change(k) => {
            format!(in alloc;
                "held: an incarnation or etherealization is unfinished in adapter {k}"
            )?
        }
    };
    Ok(Bytes::from_vec(text.into_bytes()))
}

fn attempt_text(alloc: Global, answer: Attempt) -> Result<Bytes, WantMemory>
    ensures { IfOk result (λ text. text ≡ printed.attempt_text answer) }
{
    match answer {
        Attempt::Yes { number } => {
            let text = format!(in alloc; "the adapter activator made adapter {number}")?;
            Ok(Bytes::from_vec(text.into_bytes()))
        }
        Attempt::No => fixed(alloc, "the adapter activator made none"),
        Attempt::Raised => fixed(alloc, "the adapter activator raised an exception"),
        Attempt::Dying => fixed(alloc, "the adapter above is being destroyed"),
    }
}
