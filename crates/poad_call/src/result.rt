//! The result that the body of a reply is.
ghost use Rattle.std.specs.Prelude.{◌≡◌, ◌≢◌, ◌++◌, IfErr, IfOk, OnOk, Option};
ghost use Rattle.cdr_core.specs.Cursor.{Cursor};
ghost use Rattle.giop_client.specs.Reply.{body_start};
ghost use Rattle.poa_base.specs.declared.Datum.{Datum as DatumData};
ghost use Rattle.poad_call.specs.Result.{IsResult, datum_text, result_text};

use cdr_core::{CdrFault, Reader};
use command_words::ResultKind;
use poa_base::{Body, Bytes, Datum, WantMemory};
use std::alloc::Global;

/// What the body is, read as of this kind: one field at its front, or nothing. Bytes behind it are ignored.
pub(crate) fn read_result(
    alloc: Global,
    kind: ResultKind,
    body: &Body,
) -> Result<Option<Datum>, CdrFault>
    ensures ok { IfOk result (λ value. IsResult kind body.now value) }
    ensures bad { IfErr result (λ fault. fault ≢ CdrFault.WantMemory
        → (value : Option DatumData) → IsResult kind body.now value → ⊥) }
{
    let mut reader = front(body);
    let value = match kind {
        ResultKind::Nothing => return Ok(None),
        ResultKind::Long => Datum::Long(reader.longlong()?),
        ResultKind::Ulong => Datum::Ulong(reader.ulong()?),
        ResultKind::Flag => Datum::Flag(reader.boolean()?),
        ResultKind::Octets => Datum::Octets(Bytes::from_vec(reader.octets(alloc)?)),
    };
    Ok(Some(value))
}

// A reader at the front of a body.
fn front(body: &Body) -> Reader<'_>
    ensures { result ≡ body_start body.now }
{
    Reader::new(body.bytes.as_slice(), body.little, body.base % 8)
}

/// Adds the printed form of a result.
pub(crate) fn put_result(out: &mut Vec<u8>, value: &Option<Datum>) -> Result<(), WantMemory>
    ensures { OnOk result (out.new.items ≡ out.old.items ++ result_text value.now) }
{
    match value {
        None => out.extend_from_slice(b"result"),
        Some(value) => {
            out.extend_from_slice(b"result ")?;
            put_datum(out, value)
        }
    }
}

// Adds the letter of a value's kind, and the value.
fn put_datum(out: &mut Vec<u8>, value: &Datum) -> Result<(), WantMemory>
    ensures { OnOk result (out.new.items ≡ out.old.items ++ datum_text value.now) }
{
    let alloc = *out.allocator();
    match value {
        Datum::Long(n) => out.extend_from_slice(format!(in alloc; "i:{n}")?.as_bytes()),
        Datum::Ulong(n) => out.extend_from_slice(format!(in alloc; "u:{n}")?.as_bytes()),
        Datum::Flag(true) => out.extend_from_slice(b"b:true"),
        Datum::Flag(false) => out.extend_from_slice(b"b:false"),
        Datum::Octets(bytes) => {
            out.extend_from_slice(b"o:")?;
            out.extend_from_slice(hex::encode(alloc, bytes.as_slice())?.as_bytes())
        }
        Datum::Text(bytes) => {
            out.extend_from_slice(b"s:")?;
            out.extend_from_slice(bytes.as_slice())
        }
    }
}
