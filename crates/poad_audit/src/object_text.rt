//! What is printed of an object.
ghost use Rattle.std.specs.Prelude.{◌≡◌, ◌++◌, IfOk, OnOk, Some, option_copied};
ghost use Rattle.poad_audit.specs.Objects as printed;
ghost use Rattle.poad_audit.specs.Story.{lines_by};

use crate::stored_text::put_stored;
use crate::verdict_text::fixed;
use admin_line::command_text;
use journal_explain::{Change, Doing, Moment, ObjectTrail};
use poa_base::{Bytes, Command, Oid, Path, WantMemory};
use poa_choose::MapFact;
use std::alloc::Global;
use text_words::{put_identity, put_path};

/// What the activations of an object came to; the entries of their journal begin at this line.
pub(crate) fn object_text(
    alloc: Global,
    line: u64,
    path: &Path,
    oid: &Oid,
    object: &ObjectTrail,
) -> Result<Bytes, WantMemory>
    ensures { IfOk result (λ text. text ≡ printed.object_text line path.now oid.now object.now) }
{
    let mut out = head_line(alloc, path, oid, line)?;
    put_trail(alloc, &mut out, path, oid, object)?;
    Ok(Bytes::from_vec(out))
}

/// Adds what there was of it at first, and what its activations came to.
fn put_trail(
    alloc: Global,
    out: &mut Vec<u8>,
    path: &Path,
    oid: &Oid,
    object: &ObjectTrail,
) -> Result<(), WantMemory>
    ensures { OnOk result (out.new.items
        ≡ out.old.items ++ printed.trail_text path.now oid.now object.now) }
{
    put_stored(out, b"at first ", path, oid, object.stored.as_ref())?;
    let first = first_line(alloc, object.opens, object.changes.as_slice())?;
    out.extend_from_slice(first.as_slice())?;
    put_changes(alloc, out, path, oid, object.changes.as_slice())
}

fn head_line(alloc: Global, path: &Path, oid: &Oid, line: u64) -> Result<Vec<u8>, WantMemory>
    ensures { IfOk result (λ out. out.items ≡ printed.head_line path.now oid.now line) }
{
    let mut out = Vec::from_slice(alloc, b"object")?;
    put_path(&mut out, path)?;
    put_identity(&mut out, oid)?;
    let rest = format!(in alloc; ", entry 0 in line {line}\n")?;
    out.extend_from_slice(rest.as_bytes())?;
    Ok(out)
}

/// What the active object map had before the first entry; or that there never was an activation.
fn first_line(alloc: Global, opens: MapFact, changes: &[Change]) -> Result<Bytes, WantMemory>
    ensures { IfOk result (λ text. text ≡ printed.first_line opens changes.now) }
{
    match opens {
        MapFact::Active(n) => {
            let text = format!(in alloc; "at first activation {n} is active\n")?;
            Ok(Bytes::from_vec(text.into_bytes()))
        }
        MapFact::Busy(n) => {
            let text = format!(in alloc; "at first activation {n} is on its way in or out\n")?;
            Ok(Bytes::from_vec(text.into_bytes()))
        }
        MapFact::Free => match changes {
            [] => fixed(alloc, "no such activation\n"),
            [_, ..] => Ok(Bytes::new(alloc)),
        },
    }
}

/// Adds the lines of the changes.
fn put_changes(
    alloc: Global,
    out: &mut Vec<u8>,
    path: &Path,
    oid: &Oid,
    changes: &[Change],
) -> Result<(), WantMemory>
    ensures { OnOk result (out.new.items
        ≡ out.old.items ++ lines_by (printed.change_text path.now oid.now) changes.now) }
{
    for change in changes {
        let text = change_text(alloc, path, oid, change)?;
        out.extend_from_slice(text.as_slice())?;
    }
    Ok(())
}

/// The line of a change, and that of what is stored behind it.
fn change_text(alloc: Global, path: &Path, oid: &Oid, change: &Change) -> Result<Bytes, WantMemory>
    ensures { IfOk result (λ text. text ≡ printed.change_text path.now oid.now change.now) }
{
    let mut out = change_line(alloc, change)?;
    let head = entry_head(alloc, change.entry)?;
    put_stored(&mut out, head.as_slice(), path, oid, change.stored.as_ref())?;
    Ok(Bytes::from_vec(out))
}

fn change_line(alloc: Global, change: &Change) -> Result<Vec<u8>, WantMemory>
    ensures { IfOk result (λ out. out.items ≡ printed.change_line change.now) }
{
    let moment = moment_text(alloc, change.moment)?;
    let why = why_text(alloc, change.doing, change.command.as_ref())?;
    let mut out = entry_head(alloc, change.entry)?;
    out.extend_from_slice(moment.as_slice())?;
    out.extend_from_slice(why.as_slice())?;
    out.extend_from_slice(b"\n")?;
    Ok(out)
}

fn entry_head(alloc: Global, entry: u64) -> Result<Vec<u8>, WantMemory>
    ensures { IfOk result (λ out. out.items ≡ printed.entry_head entry) }
{
    let head = format!(in alloc; "entry {entry} ")?;
    Ok(head.into_bytes())
}

fn moment_text(alloc: Global, moment: Moment) -> Result<Bytes, WantMemory>
    ensures { IfOk result (λ text. text ≡ printed.moment_text moment) }
{
    let text = match moment {
        Moment::Begins(n) => format!(in alloc; "activation {n} begins")?,
        Moment::IsActive(n) => format!(in alloc; "activation {n} is active")?,
        Moment::Ends(n) => format!(in alloc; "activation {n} is ending")?,
        Moment::Leaves(n) => format!(in alloc; "activation {n} leaves the map")?,
        Moment::IsOver(n) => format!(in alloc; "activation {n} is over")?,
    };
    Ok(Bytes::from_vec(text.into_bytes()))
}

/// Why it came to that.
fn why_text(alloc: Global, doing: Doing, command: Option<&Command>) -> Result<Bytes, WantMemory>
    ensures { IfOk result (λ text. text ≡ printed.why_text doing (option_copied command.entry)) }
{
    match doing {
        Doing::Admits(arrival) => call_text(alloc, arrival, command),
        Doing::Incarnates => fixed(alloc, ": the servant activator answered"),
        Doing::Ends => fixed(alloc, ": a request ended"),
        Doing::TakesOut(_) => fixed(alloc, ": a worker takes it out"),
        Doing::Etherealizes => fixed(alloc, ": its servant was etherealized"),
        Doing::Other => Ok(Bytes::new(alloc)),
    }
}

/// The call by which it came to that; of an administrator's line with its command.
fn call_text(alloc: Global, arrival: u64, command: Option<&Command>) -> Result<Bytes, WantMemory>
    ensures { IfOk result (λ text. text ≡ printed.call_text arrival (option_copied command.entry)) }
{
    match command {
        Some(command) => commanded(alloc, arrival, command),
        None => {
            let text = format!(in alloc; ": call {arrival}")?;
            Ok(Bytes::from_vec(text.into_bytes()))
        }
    }
}

fn commanded(alloc: Global, arrival: u64, command: &Command) -> Result<Bytes, WantMemory>
    ensures { IfOk result (λ text. text ≡ printed.call_text arrival (Some command.now)) }
{
    let words = command_text(alloc, command)?;
    let head = format!(in alloc; ": call {arrival}, ")?;
    let mut out = head.into_bytes();
    out.extend_from_slice(words.as_slice())?;
    Ok(Bytes::from_vec(out))
}
