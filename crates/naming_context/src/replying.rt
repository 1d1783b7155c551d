//! Replies, written.
ghost use Rattle.std.specs.Prelude.{◌≡◌, ◌≤◌, ◌++◌, ◌∷◌, [], false, IsFalse, IfOk, OnOk, OnErr};
ghost use Rattle.ior_text.specs.Written.{with_profiles};
ghost use Rattle.cdr_core.specs.Fields.{with_fields};
ghost use Rattle.giop_answer.specs.Outgoing.{framed as framed_bytes};
ghost use Rattle.giop_answer.specs.Reply.{hides_results, reply_opening};
ghost use Rattle.naming_context.specs.Outcomes as outcomes;
ghost use Rattle.naming_context.specs.Names.{components_fields, name_fields};
ghost use Rattle.naming_context.specs.Replies.{answer_bytes, reply_with, with_reference, with_not_found};
ghost use Rattle.poa_base.specs.declared.Outcome.TheVariants.{User};

use crate::answer::Answer;
use crate::component::Component;
use crate::reason::Reason;
use cdr_core::Writer;
use giop_answer::kind::{HEADER, MINOR, REPLY};
use giop_answer::{framed, put_reply};
use poa_base::{Bytes, Head, Ior, Outcome, Profile, Reply, WantMemory};
use std::alloc::Global;

/// The id of the exception of a name that isn't found.
const NOT_FOUND: &[u8] = b"IDL:omg.org/CosNaming/NamingContext/NotFound:1.0";

/// A result.
const NO_EXCEPTION: u32 = 0;

/// A user exception.
const USER_EXCEPTION: u32 = 1;

/// Puts the message that answers a request of this head behind others. Where memory is wanting they are as they were.
pub(crate) fn put_answer(
    alloc: Global,
    out: &mut Vec<u8>,
    head: &Head,
    answer: Answer,
) -> Result<(), WantMemory>
    requires minor { head.now.minor ≤ MINOR }
    requires request { IsFalse head.now.locate }
    ensures ok { OnOk result (out.new.items ≡ out.old.items ++ answer_bytes head.now answer) }
    ensures err { OnErr result (out.new.items ≡ out.old.items) }
{
    match answer {
        Answer::Addressing => put_reply(alloc, out, head, &Reply::Addressing),
        Answer::Outcome(outcome) => put_reply(alloc, out, head, &Reply::Outcome(outcome)),
        Answer::Reference(ior) => put_result(alloc, out, head, &ior),
        Answer::NotFound { why, rest } => put_not_found(alloc, out, head, why, rest.as_slice()),
    }
}

// A reference as a result.
fn put_result(alloc: Global, out: &mut Vec<u8>, head: &Head, ior: &Ior) -> Result<(), WantMemory>
    requires minor { head.now.minor ≤ MINOR }
    requires request { IsFalse head.now.locate }
    ensures ok { OnOk result
        (out.new.items ≡ out.old.items
        ++ reply_with head.now outcomes.nothing (with_reference ior.now)) }
    ensures err { OnErr result (out.new.items ≡ out.old.items) }
{
    if head.flags == 1 {
        return put_reply(alloc, out, head, &Reply::Outcome(Outcome::Value(None)));
    }
    let message = result_message(alloc, head, ior)?;
    out.extend_from_slice(message.as_slice())
}

fn result_message(alloc: Global, head: &Head, ior: &Ior) -> Result<Bytes, WantMemory>
    requires { hides_results head.now ≡ false }
    ensures { IfOk result
        (λ bytes. bytes ≡ reply_with head.now outcomes.nothing (with_reference ior.now)) }
{
    let mut writer = Writer::new(alloc, head.little, HEADER);
    put_opening(&mut writer, head, NO_EXCEPTION)?;
    put_ior(&mut writer, ior)?;
    framed(alloc, head.minor, REPLY, head.little, &writer.into_bytes())
}

// The exception of a name that isn't found.
fn put_not_found(
    alloc: Global,
    out: &mut Vec<u8>,
    head: &Head,
    why: Reason,
    rest: &[Component],
) -> Result<(), WantMemory>
    requires minor { head.now.minor ≤ MINOR }
    requires request { IsFalse head.now.locate }
    ensures ok { OnOk result
        (out.new.items ≡ out.old.items
        ++ reply_with head.now (User outcomes.not_found_id) (with_not_found why rest.now)) }
    ensures err { OnErr result (out.new.items ≡ out.old.items) }
{
    if head.flags == 1 {
        return put_reply(alloc, out, head, &Reply::Outcome(Outcome::Value(None)));
    }
    let message = not_found_message(alloc, head, why, rest)?;
    out.extend_from_slice(message.as_slice())
}

fn not_found_message(
    alloc: Global,
    head: &Head,
    why: Reason,
    rest: &[Component],
) -> Result<Bytes, WantMemory>
    requires { hides_results head.now ≡ false }
    ensures { IfOk result
        (λ bytes. bytes ≡ reply_with head.now (User outcomes.not_found_id)
        (with_not_found why rest.now)) }
{
    let mut writer = Writer::new(alloc, head.little, HEADER);
    put_opening(&mut writer, head, USER_EXCEPTION)?;
    writer.put_text(NOT_FOUND)?;
    writer.ulong(why.number())?;
    put_name(&mut writer, rest)?;
    framed(alloc, head.minor, REPLY, head.little, &writer.into_bytes())
}

// The fields in front of the body of a Reply: the id, the status and no contexts, which stand first before version 1.2.
fn put_opening(writer: &mut Writer, head: &Head, status: u32) -> Result<(), WantMemory>
    ensures { OnOk result (writer.new ≡ with_fields (reply_opening head.now status) writer.old) }
{
    if head.minor == MINOR {
        writer.ulong(head.id)?;
        writer.ulong(status)?;
        return writer.ulong(0);
    }
    writer.ulong(0)?;
    writer.ulong(head.id)?;
    writer.ulong(status)
}

// A reference.
fn put_ior(writer: &mut Writer, ior: &Ior) -> Result<(), WantMemory>
    ensures { OnOk result (writer.new ≡ with_reference ior.now writer.old) }
{
    writer.put_text(ior.type_id.as_slice())?;
    let profiles = ior.profiles.as_slice();
    let Ok(count) = u32::try_from(profiles.len()) else {
        return Err(WantMemory);
    };
    writer.ulong(count)?;
    put_profiles(writer, profiles)
}

fn put_profiles(writer: &mut Writer, profiles: &[Profile]) -> Result<(), WantMemory>
    ensures { OnOk result (writer.new ≡ with_profiles profiles.now writer.old) }
{
    for profile in profiles {
        writer.ulong(profile.tag)?;
        writer.put_octets(profile.bytes.as_slice())?;
    }
    Ok(())
}

// A name.
fn put_name(writer: &mut Writer, name: &[Component]) -> Result<(), WantMemory>
    ensures { OnOk result (writer.new ≡ with_fields (name_fields name.now) writer.old) }
{
    let Ok(count) = u32::try_from(name.len()) else {
        return Err(WantMemory);
    };
    writer.ulong(count)?;
    put_components(writer, name)
}

fn put_components(writer: &mut Writer, name: &[Component]) -> Result<(), WantMemory>
    ensures { OnOk result (writer.new ≡ with_fields (components_fields name.now) writer.old) }
{
    for component in name {
        writer.put_text(component.id.as_slice())?;
        writer.put_text(component.kind.as_slice())?;
    }
    Ok(())
}
