//! What is printed of all calls.
ghost use Rattle.std.specs.Prelude.{◌≡◌, ◌++◌, IfOk, OnOk, Some, string_bytes};
ghost use Rattle.poad_audit.specs.Story.{lines_by};
ghost use Rattle.poad_audit.specs.Table as printed;

use crate::row_text::{reason_text, row_text};
use crate::tally::{Tally, row_number, tally_of};
use journal_explain::{Came, Outcome, Row};
use poa_base::{Bytes, WantMemory};
use std::alloc::Global;

/// How many calls there are, and a line for all of which the same came; the entries of their journal begin at this line.
pub(crate) fn table_text(alloc: Global, line: u64, came: &[Came]) -> Result<Bytes, WantMemory>
    ensures { IfOk result (λ text. text ≡ printed.table_text line came.now) }
{
    let head = head_line(alloc, came.len() as u64, line)?;
    let mut out = head.into_bytes();
    put_all(alloc, &mut out, came)?;
    Ok(Bytes::from_vec(out))
}

fn head_line(alloc: Global, count: u64, line: u64) -> Result<String, WantMemory>
    ensures { IfOk result (λ text. string_bytes text ≡ printed.head_line count line) }
{
    Ok(format!(in alloc; "{count} calls, entry 0 in line {line}\n")?)
}

/// Adds the lines of all outcomes.
fn put_all(alloc: Global, out: &mut Vec<u8>, came: &[Came]) -> Result<(), WantMemory>
    ensures { OnOk result (out.new.items ≡ out.old.items ++ lines_by (printed.tally_line came.now) printed.all_outcomes) }
{
    let outcomes = [
        Outcome::Unadmitted,
        Outcome::Command,
        Outcome::Decided(Row::Crowded),
        Outcome::Decided(Row::NoKey),
        Outcome::Decided(Row::BadKey),
        Outcome::Decided(Row::OtherRun),
        Outcome::Decided(Row::AdapterDying),
        Outcome::Decided(Row::ChildGone),
        Outcome::Decided(Row::ParentManager),
        Outcome::Decided(Row::ChildTried),
        Outcome::Decided(Row::ChildActivator),
        Outcome::Decided(Row::ChildForward),
        Outcome::Decided(Row::ChildMissing),
        Outcome::Decided(Row::OtherLifespan),
        Outcome::Decided(Row::OtherTag),
        Outcome::Decided(Row::Manager),
        Outcome::Decided(Row::Thread),
        Outcome::Decided(Row::Active),
        Outcome::Decided(Row::Changing),
        Outcome::Decided(Row::NotActive),
        Outcome::Decided(Row::DefaultServant),
        Outcome::Decided(Row::NoDefaultServant),
        Outcome::Decided(Row::NoServantManager),
        Outcome::Decided(Row::ActivatorHere),
        Outcome::Decided(Row::ActivatorBusy),
        Outcome::Decided(Row::Incarnate),
        Outcome::Decided(Row::LocatorHere),
        Outcome::Decided(Row::Locator),
        Outcome::Decided(Row::NoRule),
    ];
    put_tallies(alloc, out, came, &outcomes)
}

/// Adds the lines of these outcomes.
fn put_tallies(
    alloc: Global,
    out: &mut Vec<u8>,
    came: &[Came],
    outcomes: &[Outcome],
) -> Result<(), WantMemory>
    ensures { OnOk result (out.new.items ≡ out.old.items ++ lines_by (printed.tally_line came.now) outcomes.now) }
{
    for outcome in outcomes {
        let line = tally_line(alloc, came, *outcome)?;
        out.extend_from_slice(line.as_slice())?;
    }
    Ok(())
}

fn tally_line(alloc: Global, came: &[Came], outcome: Outcome) -> Result<Bytes, WantMemory>
    ensures { IfOk result (λ line. line ≡ printed.tally_line came.now outcome) }
{
    let Tally { count, first, last } = tally_of(came, outcome);
    match (first, last) {
        (Some(first), Some(last)) => told_line(alloc, outcome, count, first, last),
        _ => Ok(Bytes::new(alloc)),
    }
}

fn told_line(
    alloc: Global,
    outcome: Outcome,
    count: u64,
    first: Came,
    last: Came,
) -> Result<Bytes, WantMemory>
    ensures { IfOk result (λ line. line ≡ printed.tally_by outcome count (Some first) (Some last)) }
{
    let words = outcome_text(alloc, outcome)?;
    let (first_call, first_entry) = (first.arrival, first.entry);
    let (last_call, last_entry) = (last.arrival, last.entry);
    let head = format!(in alloc;
        "calls {count}, first {first_call} in entry {first_entry}, last {last_call} in entry {last_entry}"
    )?;
    let mut out = head.into_bytes();
    out.extend_from_slice(words.as_slice())?;
    out.extend_from_slice(b"\n")?;
    Ok(Bytes::from_vec(out))
}

fn outcome_text(alloc: Global, outcome: Outcome) -> Result<Bytes, WantMemory>
    ensures { IfOk result (λ text. text ≡ printed.outcome_text outcome) }
{
    let text = match outcome {
        Outcome::Unadmitted => format!(in alloc; ": it isn't admitted")?,
        Outcome::Command => {
            let reason = reason_text(None);
            format!(in alloc; ": {reason}")?
        }
        Outcome::Decided(row) => {
            let number = row_number(row);
            let words = row_text(row);
            format!(in alloc; ", row {number}: {words}")?
        }
    };
    Ok(Bytes::from_vec(text.into_bytes()))
}
