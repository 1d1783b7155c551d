//! The call of a Request: CORBA 3.3 Part 2, 9.4.2.
ghost use Rattle.std.specs.Prelude.{◌≡◌, ◌≤◌, ◌⊎◌, ℕ, List, drop, length, IfOk, OnErr};
ghost use Rattle.cdr_core.specs.Cursor.{Cursor};
ghost use Rattle.poa_base.specs.declared.Body.{Body};
ghost use Rattle.giop_frame.specs.Part.{is_little as little_flag, minor_of as version_of};
ghost use Rattle.giop_msg.specs.Header.{message_type};
ghost use Rattle.giop_answer.specs.declared.kind.TheConstants.{REQUEST};
ghost use Rattle.giop_msg.specs.Request.{body_from, body_unit as unit_of_body, IsClosing, IsEarlierClosing, IsNewestClosing};
ghost use Rattle.giop_msg.specs.Call.{Asks};
ghost use Rattle.giop_msg.specs.Reading.{NoCall};
ghost use Rattle.giop_msg.specs.Seen.{asked_by};

use crate::contexts::pass_contexts;
use crate::opening::view_opening;
use crate::seen::Seen;
use crate::target::view_addressed;
use crate::view_fault::Unreadable;
use crate::viewing::{enter, is_little, minor_of};
use cdr_core::{PartFault, View};
use giop_answer::kind::{HEADER, MINOR};
use poa_base::Head;

/// The body of a Request, and the place at which it begins.
#[derive(Drop)]
struct BodyView<'a> {
    bytes: &'a [u8],
    base: u64,
}

/// The call that a Request makes.
pub(crate) fn view_request<'a>(bytes: &'a [u8]) -> Result<Seen<'a>, Unreadable>
    requires whole { HEADER ≤ length bytes.now }
    requires request { message_type bytes.now ≡ REQUEST }
    requires known { version_of bytes.now ≤ 2 }
    ensures ok { IfOk result (λ seen. Asks bytes.now (asked_by seen)) }
    ensures bad { OnErr result (NoCall bytes.now) }
{
    let minor = minor_of(bytes);
    let mut view = enter(bytes);
    let opening = view_opening(&mut view, minor)?;
    let target = view_addressed(&mut view, minor)?;
    let operation = view_closing(&mut view, minor)?;
    let body = body_at(bytes, view.place(), body_unit(minor));
    let head = Head {
        id: opening.id,
        minor,
        little: is_little(bytes),
        flags: opening.flags,
        locate: false,
    };
    Ok(Seen::Request {
        head,
        target,
        operation,
        body: body.bytes,
        base: body.base,
    })
}

// The operation, and behind it what isn't kept: the service contexts, or the principal before version 1.2.
fn view_closing<'a>(view: &mut View<'a>, minor: u8) -> Result<&'a [u8], PartFault>
    ensures ok { IfOk result (λ operation. IsClosing minor operation.now view.old view.new) }
    ensures bad { OnErr result
        ((operation : List ℕ) (after : Cursor) → IsClosing minor operation view.old after → ⊥) }
{
    if minor == MINOR {
        view_newest_closing(view)
    } else {
        view_earlier_closing(view)
    }
}

// The operation and the service contexts.
fn view_newest_closing<'a>(view: &mut View<'a>) -> Result<&'a [u8], PartFault>
    ensures ok { IfOk result (λ operation. IsNewestClosing operation.now view.old view.new) }
    ensures bad { OnErr result
        ((operation : List ℕ) (after : Cursor) → IsNewestClosing operation view.old after → ⊥) }
{
    let operation = view.text()?;
    let count = view.ulong()?;
    pass_contexts(view, count)?;
    Ok(operation)
}

// The operation and the principal.
fn view_earlier_closing<'a>(view: &mut View<'a>) -> Result<&'a [u8], PartFault>
    ensures ok { IfOk result (λ operation. IsEarlierClosing operation.now view.old view.new) }
    ensures bad { OnErr result
        ((operation : List ℕ) (after : Cursor) → IsEarlierClosing operation view.old after → ⊥) }
{
    let name = view.text()?;
    view.octets()?;
    Ok(name)
}

/// What the body begins at a multiple of.
pub(crate) fn body_unit(minor: u8) -> u64
    ensures value { result ≡ unit_of_body minor }
    ensures known { (result ≡ 1) ⊎ (result ≡ 8) }
{
    if minor == MINOR { 8 } else { 1 }
}

// The body behind the fields that end at `place`: it begins at the next multiple of its unit, or, where the message
// ends before that, it is empty and has the message's end as its place.
fn body_at<'a>(bytes: &'a [u8], place: u64, unit: u64) -> BodyView<'a>
    requires header { HEADER ≤ length bytes.now }
    requires within { place ≤ length bytes.now }
    requires unit { (unit ≡ 1) ⊎ (unit ≡ 8) }
    ensures { record {
      bytes = result.bytes.now;
      little = little_flag bytes.now;
      base = result.base;
    } ≡ body_from unit
        (record { little = little_flag bytes.now; place = place; rest = drop place bytes.now }) }
{
    let padding = (unit - place % unit) % unit;
    let left = bytes.len() as u64 - place;
    let base = place + padding.min(left);
    let (_, bytes) = bytes.split_at(base as usize);
    BodyView { bytes, base }
}
