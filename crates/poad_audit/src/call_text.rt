//! What is printed of what came as a call.
ghost use Rattle.std.specs.Prelude.{◌≡◌, ◌++◌, OnOk, option_copied, string_bytes};
ghost use Rattle.poad_audit.specs.Calls as printed;

use admin_line::command_text;
use poa_base::{Bytes, Call, Command, WantMemory};
use poad_files::{put_key, put_printed};
use std::alloc::Global;

/// Adds what a call asks, and of which object.
pub(crate) fn put_call(alloc: Global, out: &mut Vec<u8>, call: &Call) -> Result<(), WantMemory>
    ensures { OnOk result (out.new.items ≡ out.old.items ++ printed.call_text call.now) }
{
    match call {
        Call::Request {
            target,
            operation,
            ..
        } => put_request(out, operation, target.as_ref()),
        Call::Locate { target, .. } => put_locate(out, target.as_ref()),
        Call::Line { number, command } => put_command(alloc, out, *number, command),
    }
}

fn put_request(
    out: &mut Vec<u8>,
    operation: &Bytes,
    target: Option<&Bytes>,
) -> Result<(), WantMemory>
    ensures { OnOk result (out.new.items
        ≡ out.old.items ++ printed.request_text operation.now (option_copied target.entry)) }
{
    out.extend_from_slice(b"asks ")?;
    put_printed(out, operation.as_slice())?;
    out.extend_from_slice(b"\n")?;
    put_target(out, target)
}

fn put_locate(out: &mut Vec<u8>, target: Option<&Bytes>) -> Result<(), WantMemory>
    ensures { OnOk result (out.new.items ≡ out.old.items ++ printed.locate_text (option_copied target.entry)) }
{
    out.extend_from_slice(b"asks where its object is\n")?;
    put_target(out, target)
}

/// Adds the key of an object.
fn put_target(out: &mut Vec<u8>, target: Option<&Bytes>) -> Result<(), WantMemory>
    ensures { OnOk result (out.new.items ≡ out.old.items ++ printed.target_text (option_copied target.entry)) }
{
    match target {
        Some(octets) => put_octets(out, octets.as_slice()),
        None => out.extend_from_slice(b"its target gives no key\n"),
    }
}

#[tactic(auto, using(crate::proofs::Keys::key_put))]
fn put_octets(out: &mut Vec<u8>, octets: &[u8]) -> Result<(), WantMemory>
    ensures { OnOk result (out.new.items ≡ out.old.items ++ printed.key_text octets.now) }
{
    let put = put_key(out, octets);
    put
}

/// Adds an administrator's line, the one of this number on its connection.
fn put_command(
    alloc: Global,
    out: &mut Vec<u8>,
    number: u64,
    command: &Command,
) -> Result<(), WantMemory>
    ensures { OnOk result (out.new.items ≡ out.old.items ++ printed.command_text number command.now) }
{
    let words = command_text(alloc, command)?;
    let head = format!(in alloc; "line {number}: ")?;
    out.extend_from_slice(head.as_bytes())?;
    out.extend_from_slice(words.as_slice())?;
    out.extend_from_slice(b"\n")
}
