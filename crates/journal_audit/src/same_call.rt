//! Whether two calls are one and the same.
ghost use Rattle.std.specs.Prelude.{◌≡◌, ◌↔◌, IsTrue};
ghost use Rattle.poa_base.specs.declared.Call.{Call as Calls};

use crate::same_command::same_command;
use poa_base::{Body, Bytes, Call, Command, Head};

/// Whether two calls are one and the same.
pub(crate) fn same_call(a: &Call, b: &Call) -> bool
    ensures { IsTrue result ↔ (a.now ≡ b.now) }
{
    match a {
        Call::Request {
            head,
            target,
            operation,
            body,
        } => is_request(b, head, target, operation, body),
        Call::Locate { head, target } => is_locate(b, head, target),
        Call::Line { number, command } => is_line(b, *number, command),
    }
}

/// Whether it is the request with these parts.
fn is_request(
    call: &Call,
    head: &Head,
    target: &Option<Bytes>,
    operation: &Bytes,
    body: &Body,
) -> bool
    ensures { IsTrue result ↔ (Calls.Request head.now target.now operation.now body.now ≡ call.now) }
{
    match call {
        Call::Request {
            head: first,
            target: second,
            operation: third,
            body: last,
        } => head == first && (target == second && (operation == third && body == last)),
        _ => false,
    }
}

/// Whether it is the locate with these parts.
fn is_locate(call: &Call, head: &Head, target: &Option<Bytes>) -> bool
    ensures { IsTrue result ↔ (Calls.Locate head.now target.now ≡ call.now) }
{
    match call {
        Call::Locate {
            head: first,
            target: last,
        } => head == first && target == last,
        _ => false,
    }
}

/// Whether it is the line of this number with this command.
fn is_line(call: &Call, number: u64, command: &Command) -> bool
    ensures { IsTrue result ↔ (Calls.Line number command.now ≡ call.now) }
{
    match call {
        Call::Line {
            number: first,
            command: last,
        } => number == *first && same_command(command, last),
        _ => false,
    }
}
