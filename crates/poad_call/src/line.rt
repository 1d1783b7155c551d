//! The line that is printed of how a call ended.
ghost use Rattle.std.specs.Prelude.{◌≡◌, ◌++◌, ◌∷◌, [], IfOk, Ok, MatchResult};
ghost use Rattle.poad_call.specs.Line as spec;
ghost use Rattle.poad_call.specs.Line.{HasNoLine, IsLine, PrintsResult, FailsToRead};
ghost use Rattle.poad_call.specs.Result.{result_text};

use crate::result::{put_result, read_result};
use cdr_core::CdrFault;
use command_words::ResultKind;
use giop_client::CallEnd;
use poa_base::{Body, Bytes, Datum, WantMemory};
use poad_files::{Status, put_printed};
use std::alloc::Global;
use text_words::{put_minor, put_number};

/// The line of how a call ended, with a result read as of this kind; or the status where nothing is printed.
pub(crate) fn line_of(alloc: Global, kind: ResultKind, end: &CallEnd) -> Result<Bytes, Status>
    ensures { MatchResult result (IsLine kind end.now) (HasNoLine kind end.now) }
{
    match end {
        CallEnd::Result { body } => result_line(alloc, kind, body),
        CallEnd::User { id } => or_status(user_line(alloc, id)),
        CallEnd::System { id, minor, done } => or_status(system_line(alloc, id, *minor, *done)),
        CallEnd::NoProfile => Err(Status::NoProfile),
        CallEnd::TooManyHops { hops } => Err(Status::TooManyHops { hops: *hops }),
        CallEnd::ConnectFault => Err(Status::ConnectFault),
        CallEnd::ReadFault => Err(Status::ReadFault),
        CallEnd::WriteFault => Err(Status::WriteFault),
        CallEnd::Closed => Err(Status::Closed),
        CallEnd::BadReply => Err(Status::BadReply),
        CallEnd::NoAnswer { quiets } => Err(Status::NoAnswer { quiets: *quiets }),
        CallEnd::WantMemory => Err(Status::WantMemory),
    }
}

// The line of a result, or the status where the body isn't one of this kind.
fn result_line(alloc: Global, kind: ResultKind, body: &Body) -> Result<Bytes, Status>
    ensures { MatchResult result (PrintsResult kind body.now) (FailsToRead kind body.now) }
{
    match read_result(alloc, kind, body) {
        Ok(value) => or_status(value_line(alloc, &value)),
        Err(CdrFault::WantMemory) => Err(Status::WantMemory),
        Err(_) => Err(Status::BadReply),
    }
}

fn value_line(alloc: Global, value: &Option<Datum>) -> Result<Bytes, WantMemory>
    ensures { IfOk result (λ line. line ≡ result_text value.now ++ 10 ∷ []) }
{
    let mut out = Vec::new(alloc);
    put_result(&mut out, value)?;
    out.push(b'\n')?;
    Ok(Bytes::from_vec(out))
}

fn user_line(alloc: Global, id: &Bytes) -> Result<Bytes, WantMemory>
    ensures { IfOk result (λ line. line ≡ spec.user_line id.now) }
{
    let mut out = Vec::from_slice(alloc, b"user ")?;
    put_printed(&mut out, id.as_slice())?;
    out.push(b'\n')?;
    Ok(Bytes::from_vec(out))
}

fn system_line(alloc: Global, id: &Bytes, minor: u32, done: u32) -> Result<Bytes, WantMemory>
    ensures { IfOk result (λ line. line ≡ spec.system_line id.now minor done) }
{
    let mut out = Vec::from_slice(alloc, b"system ")?;
    put_printed(&mut out, id.as_slice())?;
    put_minor(&mut out, minor)?;
    put_number(&mut out, u64::from(done))?;
    out.push(b'\n')?;
    Ok(Bytes::from_vec(out))
}

// The line, or the status where no memory was left.
fn or_status(line: Result<Bytes, WantMemory>) -> Result<Bytes, Status>
    ensures { MatchResult result (λ bytes. line ≡ Ok bytes) (λ status. status ≡ Status.WantMemory) }
{
    match line {
        Ok(line) => Ok(line),
        Err(WantMemory) => Err(Status::WantMemory),
    }
}
