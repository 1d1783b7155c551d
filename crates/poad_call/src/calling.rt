//! A call of an object, and what is printed of its end.
ghost use Rattle.std.specs.Prelude.{◌≡◌, ◌≤◌, ◌⊎◌, None, Some};
ghost use Rattle.giop_client.specs.Counting.{IsLater};
ghost use Rattle.outside.specs.Cause.{Rose};
ghost use Rattle.poad_call.specs.Asking as spec;
ghost use Rattle.poad_call.specs.Asking.{asked_in, seen_asked};
ghost use Rattle.poad_call.specs.Calling.{BlamesStatus, CallGives, Tells};

use crate::asked::Asked;
use crate::line::line_of;
use command_words::{ResultKind, WordsFault};
use giop_client::{CallEnd, follow};
use outside::{Connector, Sink};
use poad_files::{Host, Status, deliver, read_reference};
use std::alloc::Global;

/// Does what words say that are `call IOR OP [ARG] [--as KIND] [--hops N]`: asks the object of the reference, which is a
/// written form or a corbaloc text, to do the operation, over links that the connector opens, along at most N forwards
/// (0 to 16; 8), and prints how the call ended. ARG is that of a line `ask` of a script, and KIND says as what the result
/// is read: `v` for not at all, `i`, `u`, `b` or `o`.
///
/// How it ends:
/// - `Ok`: `result` with its value, `user ID` or `system ID MINOR DONE` was printed.
/// - `BadWords`: the words are no such call. No link was opened.
/// - `TextRefused`, `LocRefused`: the text is no reference, with its first fault. No link was opened.
/// - `NoProfile`, `TooManyHops`, `ConnectFault`, `ReadFault`, `WriteFault`, `Closed`, `BadReply`, `NoAnswer`: the call
///   ended so, as [`CallEnd`] has it; `BadReply` too where the result isn't one of KIND. Nothing was printed.
/// - `WriteFault`: also where a write to the sink failed. A front of the line was printed.
/// - `WantMemory`: no memory was left. Nothing was printed.
///
/// No other status comes.
pub fn run_call<S, K: Sink, F, C: Connector>(
    alloc: Global,
    words: &[String],
    host: &mut Host<S, K, F>,
    connector: &mut C,
) -> Status
    ensures bad_words { result ≡ Status.BadWords → asked_in words.now ≡ None }
    ensures no_call { asked_in words.now ≡ None
        → (result ≡ Status.BadWords) ⊎ (result ≡ Status.WantMemory) }
    ensures untouched { asked_in words.now ≡ None
        → (host.new ≡ host.old) × (connector.new ≡ connector.old) }
    ensures calls { (asked : spec.Asked) → asked_in words.now ≡ Some asked
        → CallGives asked result (connector.new ≡ connector.old) (C.calls connector.old)
        (C.calls connector.new)
        (K.held host.old.sink) (K.held host.new.sink) }
    ensures aside { (host.new.source ≡ host.old.source) × (host.new.files ≡ host.old.files) }
    ensures later { IsLater (C.tally connector.old) (C.tally connector.new) }
    ensures sink_later { K.write_faults host.old.sink ≤ K.write_faults host.new.sink }
    ensures cause { BlamesStatus result (C.tally connector.old) (C.tally connector.new)
        (K.write_faults host.old.sink) (K.write_faults host.new.sink) }
{
    match Asked::of(alloc, words) {
        Ok(asked) => call(alloc, &asked, &mut host.sink, connector),
        Err(WordsFault::BadWords) => Status::BadWords,
        Err(WordsFault::WantMemory) => Status::WantMemory,
    }
}

// Calls the object that is asked, and prints how that ended.
fn call<K: Sink, C: Connector>(
    alloc: Global,
    asked: &Asked<'_>,
    sink: &mut K,
    connector: &mut C,
) -> Status
    requires { asked.now.words.hops ≤ 16 }
    ensures calls { CallGives (seen_asked asked.now) result (connector.new ≡ connector.old)
        (C.calls connector.old)
        (C.calls connector.new) (K.held sink.old) (K.held sink.new) }
    ensures later { IsLater (C.tally connector.old) (C.tally connector.new) }
    ensures sink_later { K.write_faults sink.old ≤ K.write_faults sink.new }
    ensures cause { BlamesStatus result (C.tally connector.old) (C.tally connector.new)
        (K.write_faults sink.old)
        (K.write_faults sink.new) }
{
    let words = &asked.words;
    let ior = match read_reference(alloc, words.reference.as_bytes()) {
        Ok(ior) => ior,
        Err(status) => return status,
    };
    let operation = words.operation.as_bytes();
    let followed = follow(
        alloc,
        connector,
        &ior,
        operation,
        &asked.argument,
        words.hops,
    );
    tell(alloc, words.kind, &followed.end, sink)
}

// Prints how a call ended.
fn tell<K: Sink>(alloc: Global, kind: ResultKind, end: &CallEnd, sink: &mut K) -> Status
    ensures tells { Tells kind end.now result (K.held sink.old) (K.held sink.new) }
    ensures later { K.write_faults sink.old ≤ K.write_faults sink.new }
    ensures written { result ≡ Status.WriteFault → (end.now ≡ CallEnd.WriteFault)
        ⊎ Rose (K.write_faults sink.old) (K.write_faults sink.new) }
{
    let line = match line_of(alloc, kind, end) {
        Ok(line) => line,
        Err(status) => return status,
    };
    if deliver(sink, line.as_slice()) {
        Status::Ok
    } else {
        Status::WriteFault
    }
}
