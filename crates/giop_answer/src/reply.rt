//! The bytes of a reply: CORBA 3.3 Part 2, 9.4.3 and 9.4.6.
ghost use Rattle.std.specs.Prelude.{◌≡◌, ◌≤◌, ◌++◌, length, take, vec_len, IfOk, OnOk, OnErr};
ghost use Rattle.cdr_core.specs.Fields.{with_fields};
ghost use Rattle.ior_text.specs.Profile.{profile_of};
ghost use Rattle.giop_answer.specs.Reply.{reply_bytes, reply_kind as kind_of_reply, content_draft, reply_fields, outcome_fields, reference_fields, value_fields, opening_of, reply_status as status_of, outcome_status as status_of_outcome, locate_status as status_of_locate, hides_results as hides, AnswersHead};

use crate::exception::put_exception;
use crate::field::put_datum;
use crate::kind::{HEADER, LOCATE_REPLY, MINOR, REPLY};
use crate::outgoing::{put_header, tell_size};
use crate::status::{
    LOC_NEEDS_ADDRESSING_MODE, LOCATION_FORWARD, NEEDS_ADDRESSING_MODE, NO_EXCEPTION,
    OBJECT_FORWARD, OBJECT_HERE, SYSTEM_EXCEPTION, UNKNOWN_OBJECT, USER_EXCEPTION,
};
use cdr_core::Writer;
use ior_text::write_profile;
use poa_base::{Bytes, Datum, Endpoint, Head, Outcome, Reply, WantMemory};
use std::alloc::Global;
use std::mem;

/// The message that answers a Request or LocateRequest with this head, alone: see [`put_reply`].
pub fn write_reply(alloc: Global, head: &Head, reply: &Reply) -> Result<Bytes, WantMemory>
    requires minor { head.now.minor ≤ MINOR }
    requires answers { AnswersHead head.now reply.now }
    ensures { IfOk result (λ bytes. bytes ≡ reply_bytes head.now reply.now) }
{
    let mut message = Vec::new(alloc);
    put_reply(alloc, &mut message, head, reply)?;
    Ok(Bytes::from_vec(message))
}

/// Puts behind other bytes the message that answers a Request or LocateRequest with this head, in its byte order and
/// version. Where memory is wanting the bytes are as they were.
///
/// Where the response flags are exactly 1 a result or a user exception is replaced by NO_EXCEPTION with an
/// empty body. The completion of a system exception follows from its minor code. A forward is a reference
/// with an empty type id and one IIOP profile. `WantMemory` is also the answer to a string or a sequence of
/// 2^31 bytes or more, which no CDR writer takes.
pub fn put_reply(
    alloc: Global,
    out: &mut Vec<u8>,
    head: &Head,
    reply: &Reply,
) -> Result<(), WantMemory>
    requires minor { head.now.minor ≤ MINOR }
    requires answers { AnswersHead head.now reply.now }
    ensures ok { OnOk result (out.new.items ≡ out.old.items ++ reply_bytes head.now reply.now) }
    ensures err { OnErr result (out.new.items ≡ out.old.items) }
{
    let len = out.len();
    let done = append_reply(alloc, out, head, reply);
    if done.is_err() {
        out.truncate(len);
    }
    done
}

// The same. Where memory is wanting, only some of the message may stand behind what stood there.
fn append_reply(
    alloc: Global,
    out: &mut Vec<u8>,
    head: &Head,
    reply: &Reply,
) -> Result<(), WantMemory>
    ensures ok { OnOk result (out.new.items ≡ out.old.items ++ reply_bytes head.now reply.now) }
    ensures front { take (vec_len out.old) out.new.items ≡ out.old.items }
{
    let start = out.len();
    put_header(out, head.minor, reply_kind(head), head.little)?;
    put_content(alloc, out, head, reply)?;
    tell_size(out, start, head.little)
}

// The type of the message that answers such a head.
fn reply_kind(head: &Head) -> u8
    ensures { result ≡ kind_of_reply head.now }
{
    if head.locate { LOCATE_REPLY } else { REPLY }
}

// What follows the header.
fn put_content(
    alloc: Global,
    out: &mut Vec<u8>,
    head: &Head,
    reply: &Reply,
) -> Result<(), WantMemory>
    ensures ok { OnOk result (out.new.items ≡ out.old.items ++ (content_draft head.now reply.now).bytes) }
    ensures front { take (vec_len out.old) out.new.items ≡ out.old.items }
{
    let bytes = mem::replace(out, Vec::new(alloc));
    let mut writer = Writer::behind(bytes, head.little, HEADER);
    let done = put_fields(alloc, &mut writer, head, reply);
    *out = writer.into_bytes();
    done
}

// The fields of a reply.
fn put_fields(
    alloc: Global,
    writer: &mut Writer,
    head: &Head,
    reply: &Reply,
) -> Result<(), WantMemory>
    ensures ok { OnOk result
        (writer.new ≡ with_fields (reply_fields head.now reply.now) (with_fields (opening_of head.now reply.now) writer.old)) }
    ensures front { take (length writer.old.bytes) writer.new.bytes ≡ writer.old.bytes }
{
    put_opening(writer, head, reply)?;
    put_body(alloc, writer, head, reply)
}

// The fields in front of the body. The contexts of a Reply, of which there are none, stand first before version 1.2.
fn put_opening(writer: &mut Writer, head: &Head, reply: &Reply) -> Result<(), WantMemory>
    ensures ok { OnOk result (writer.new ≡ with_fields (opening_of head.now reply.now) writer.old) }
    ensures front { take (length writer.old.bytes) writer.new.bytes ≡ writer.old.bytes }
{
    if head.locate {
        writer.ulong(head.id)?;
        return writer.ulong(locate_status(reply));
    }
    if head.minor == MINOR {
        writer.ulong(head.id)?;
        writer.ulong(reply_status(head, reply))?;
        return writer.ulong(0);
    }
    writer.ulong(0)?;
    writer.ulong(head.id)?;
    writer.ulong(reply_status(head, reply))
}

// The body of a reply.
fn put_body(
    alloc: Global,
    writer: &mut Writer,
    head: &Head,
    reply: &Reply,
) -> Result<(), WantMemory>
    ensures ok { OnOk result (writer.new ≡ with_fields (reply_fields head.now reply.now) writer.old) }
    ensures front { take (length writer.old.bytes) writer.new.bytes ≡ writer.old.bytes }
{
    match reply {
        Reply::Outcome(outcome) => put_outcome(writer, head, outcome),
        Reply::Forward { endpoint, key } => put_reference(alloc, writer, endpoint, key.as_slice()),
        Reply::Addressing => writer.ushort(0),
        _ => Ok(()),
    }
}

// The body of an outcome.
fn put_outcome(writer: &mut Writer, head: &Head, outcome: &Outcome) -> Result<(), WantMemory>
    ensures ok { OnOk result (writer.new ≡ with_fields (outcome_fields head.now outcome.now) writer.old) }
    ensures front { take (length writer.old.bytes) writer.new.bytes ≡ writer.old.bytes }
{
    match outcome {
        Outcome::System(raised) => put_exception(writer, raised),
        _ if hides_results(head) => Ok(()),
        Outcome::Value(value) => put_value(writer, value),
        Outcome::User(id) => writer.put_text(id.as_slice()),
    }
}

// A result, or none.
fn put_value(writer: &mut Writer, value: &Option<Datum>) -> Result<(), WantMemory>
    ensures ok { OnOk result (writer.new ≡ with_fields (value_fields value.now) writer.old) }
    ensures front { take (length writer.old.bytes) writer.new.bytes ≡ writer.old.bytes }
{
    match value {
        Some(datum) => put_datum(writer, datum),
        None => Ok(()),
    }
}

// A reference without a type id to the object with this key at this endpoint.
fn put_reference(
    alloc: Global,
    writer: &mut Writer,
    endpoint: &Endpoint,
    key: &[u8],
) -> Result<(), WantMemory>
    ensures ok { OnOk result (writer.new ≡ with_fields (reference_fields (profile_of endpoint.now key.now)) writer.old) }
    ensures front { take (length writer.old.bytes) writer.new.bytes ≡ writer.old.bytes }
{
    let profile = write_profile(alloc, endpoint, key)?;
    writer.text(b"")?;
    writer.ulong(1)?;
    writer.ulong(profile.tag)?;
    writer.put_octets(profile.bytes.as_slice())
}

// Whether only system exceptions are told.
fn hides_results(head: &Head) -> bool
    ensures { result ≡ hides head.now }
{
    head.flags == 1
}

// The status of a Reply.
fn reply_status(head: &Head, reply: &Reply) -> u32
    ensures { result ≡ status_of head.now reply.now }
{
    match reply {
        Reply::Outcome(outcome) => outcome_status(head, outcome),
        Reply::Forward { .. } => LOCATION_FORWARD,
        _ => NEEDS_ADDRESSING_MODE,
    }
}

// The status of an outcome.
fn outcome_status(head: &Head, outcome: &Outcome) -> u32
    ensures { result ≡ status_of_outcome head.now outcome.now }
{
    match outcome {
        Outcome::Value(_) => NO_EXCEPTION,
        Outcome::User(_) => {
            if hides_results(head) {
                NO_EXCEPTION
            } else {
                USER_EXCEPTION
            }
        }
        Outcome::System(_) => SYSTEM_EXCEPTION,
    }
}

// The status of a LocateReply.
fn locate_status(reply: &Reply) -> u32
    ensures { result ≡ status_of_locate reply.now }
{
    match reply {
        Reply::Here => OBJECT_HERE,
        Reply::Forward { .. } => OBJECT_FORWARD,
        Reply::Addressing => LOC_NEEDS_ADDRESSING_MODE,
        _ => UNKNOWN_OBJECT,
    }
}
