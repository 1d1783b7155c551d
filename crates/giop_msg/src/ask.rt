//! Requests that are written: CORBA 3.3 Part 2, 9.4.2.
ghost use Rattle.std.specs.Prelude.{◌≡◌, ◌≢◌, ◌≤◌, ◌<◌, ◌^◌, ◌⊎◌, ◌++◌, [], IfOk, OnOk, IsFalse};
ghost use Rattle.giop_frame.specs.Message.{IsMessage};
ghost use Rattle.giop_answer.specs.Outgoing.{fields_draft};
ghost use Rattle.cdr_core.specs.Fields.{with_fields};
ghost use Rattle.giop_msg.specs.Contexts.{counted_contexts};
ghost use Rattle.giop_msg.specs.Opening.{asked_fields, opening_fields};
ghost use Rattle.giop_msg.specs.Request.{body_unit as unit_of_body};
ghost use Rattle.giop_msg.specs.Ask.{request_bytes, request_draft, newest_fields, earlier_fields, no_reserved, asked_by_flags as asked_of, argument_bytes as bytes_of_argument, CarriesFlags, IsAsk, Fitting};

use crate::request::body_unit;
use crate::target::KEY_ADDRESS;
use cdr_core::Writer;
use giop_answer::kind::{HEADER, MINOR, REQUEST};
use giop_answer::{framed, put_datum};
use poa_base::{Ask, Bytes, Datum, WantMemory};
use std::alloc::Global;

/// The Request that asks this, of the version of its head: its target is told by the key, it has no service contexts,
/// before version 1.2 no principal, and its argument begins at a multiple of 8 from version 1.2 on. `WantMemory` is
/// also the answer to a key, an operation or an argument of 2^31 bytes or more, which no CDR writer takes.
pub fn write_request(alloc: Global, ask: &Ask) -> Result<Bytes, WantMemory>
    requires minor { ask.now.head.minor ≤ MINOR }
    requires flags { CarriesFlags ask.now.head.minor ask.now.head.flags }
    requires request { IsFalse ask.now.head.locate }
    ensures bytes { IfOk result (λ bytes. bytes ≡ request_bytes ask.now) }
    ensures message { IfOk result (λ bytes. IsMessage bytes) }
    // Whatever is written is read back as the call of `ask`.
    ensures ask { OnOk result (IsAsk ask.now) }
{
    let mut fields = request_fields(alloc, ask)?;
    if fields.len() >= 1 << 32 {
        return Err(WantMemory);
    }
    let minor = ask.head.minor;
    let little = ask.head.little;
    let place = HEADER + fields.len() as u64;
    let body = argument_bytes(alloc, body_unit(minor), little, place, &ask.argument)?;
    fields.extend_from_slice(&body)?;
    framed(alloc, minor, REQUEST, little, &fields)
}

// The fields in front of the body.
fn request_fields(alloc: Global, ask: &Ask) -> Result<Vec<u8>, WantMemory>
    ensures bytes { IfOk result (λ bytes. bytes.items ≡ (request_draft ask.now).bytes) }
    ensures fits { OnOk result (Fitting ask.now) }
{
    if ask.head.minor == MINOR {
        newest_request(alloc, ask)
    } else {
        earlier_request(alloc, ask)
    }
}

// The fields of version 1.2.
fn newest_request(alloc: Global, ask: &Ask) -> Result<Vec<u8>, WantMemory>
    ensures bytes { IfOk result
        (λ bytes. bytes.items ≡ (fields_draft ask.now.head.little (newest_fields ask.now)).bytes) }
    ensures fits { OnOk result (Fitting ask.now) }
{
    let mut writer = newest_opening(alloc, ask.head.little, ask.head.id, ask.head.flags)?;
    writer.ushort(KEY_ADDRESS)?;
    writer.put_octets(ask.key.as_slice())?;
    writer.put_text(ask.operation.as_slice())?;
    writer.ulong(0)?;
    Ok(writer.into_bytes())
}

// The id, the response flags and three octets that are reserved.
fn newest_opening(alloc: Global, little: bool, id: u32, flags: u8) -> Result<Writer, WantMemory>
    ensures fields { IfOk result
        (λ writer. writer ≡ fields_draft little (opening_fields id flags 0 0 0)) }
    ensures id { id < 2 ^ 32 }
    ensures flags { flags < 2 ^ 8 }
{
    let mut writer = Writer::new(alloc, little, HEADER);
    writer.ulong(id)?;
    writer.octet(flags)?;
    writer.octet(0)?;
    writer.octet(0)?;
    writer.octet(0)?;
    Ok(writer)
}

// The fields of the versions before it.
fn earlier_request(alloc: Global, ask: &Ask) -> Result<Vec<u8>, WantMemory>
    ensures bytes { IfOk result
        (λ bytes. bytes.items ≡ (fields_draft ask.now.head.little (earlier_fields ask.now)).bytes) }
    ensures fits { OnOk result (Fitting ask.now) }
{
    let mut writer = earlier_opening(alloc, ask.head.little, ask.head.id, ask.head.flags)?;
    put_reserved(&mut writer, ask.head.minor)?;
    writer.put_octets(ask.key.as_slice())?;
    writer.put_text(ask.operation.as_slice())?;
    writer.put_octets(b"")?;
    Ok(writer.into_bytes())
}

// No service contexts, the id, and whether a reply is asked.
fn earlier_opening(alloc: Global, little: bool, id: u32, flags: u8) -> Result<Writer, WantMemory>
    ensures fields { IfOk result
        (λ writer. writer ≡ fields_draft little
        (counted_contexts [] ++ asked_fields id (asked_of flags))) }
    ensures id { id < 2 ^ 32 }
    ensures flags { flags < 2 ^ 8 }
{
    let mut writer = Writer::new(alloc, little, HEADER);
    writer.ulong(0)?;
    writer.ulong(id)?;
    writer.octet(asked_by_flags(flags))?;
    Ok(writer)
}

// The octet that stands for response flags before version 1.2.
fn asked_by_flags(flags: u8) -> u8
    ensures { result ≡ asked_of flags }
{
    if flags == 0 { 0 } else { 1 }
}

// The octets that are reserved, which are 0: none in version 1.0, three in 1.1.
fn put_reserved(writer: &mut Writer, minor: u8) -> Result<(), WantMemory>
    ensures { OnOk result (writer.new ≡ with_fields (no_reserved minor) writer.old) }
{
    if minor == 0 {
        return Ok(());
    }
    writer.octet(0)?;
    writer.octet(0)?;
    writer.octet(0)
}

// The body behind the fields that end at `place`, which begins at a multiple of its unit.
fn argument_bytes(
    alloc: Global,
    unit: u64,
    little: bool,
    place: u64,
    argument: &Option<Datum>,
) -> Result<Vec<u8>, WantMemory>
    requires place { place < 2 ^ 33 }
    requires unit { (unit ≡ 1) ⊎ (unit ≡ 8) }
    ensures { IfOk result
        (λ bytes. bytes.items ≡ bytes_of_argument unit little place argument.now) }
{
    let Some(datum) = argument else {
        return Ok(Vec::new(alloc));
    };
    let padding = (unit - place % unit) % unit;
    let mut writer = Writer::new(alloc, little, place + padding);
    put_datum(&mut writer, datum)?;
    let mut bytes = Vec::from_slice(alloc, &[0; 8][..padding as usize])?;
    bytes.extend_from_slice(&writer.into_bytes())?;
    Ok(bytes)
}
