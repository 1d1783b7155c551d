//! A Reply, seen where it lies: CORBA 3.3 Part 2, 9.4.3.
ghost use Rattle.std.specs.Prelude.{◌≡◌, ◌≤◌, ℕ, IfOk, OnErr, length};
ghost use Rattle.cdr_core.specs.Cursor.{Cursor};
ghost use Rattle.poa_base.specs.declared.Body.{Body};
ghost use Rattle.giop_frame.specs.Part.{is_little as little_flag};
ghost use Rattle.giop_msg.specs.Request.{body_at};
ghost use Rattle.giop_client.specs.Reply.{IsTold, NewHead, OldHead, IsHead, IsReply};
ghost use Rattle.giop_client.specs.Reading.{seen_body};

use crate::body_view::BodyView;
use cdr_core::{PartFault, View};
use giop_answer::kind::{HEADER, MINOR};
use giop_msg::pass_counted;

/// A Reply, seen where it lies.
#[derive(Clone, Copy)]
pub(crate) struct ReplyView<'a> {
    pub id: u32,
    pub status: u32,
    pub body: BodyView<'a>,
}

/// The id of the request and the status.
#[derive(Clone, Copy)]
struct Told {
    id: u32,
    status: u32,
}

/// The Reply of these bytes. Its service contexts aren't kept.
pub(crate) fn view_reply<'a>(bytes: &'a [u8]) -> Result<ReplyView<'a>, PartFault>
    requires whole { HEADER ≤ length bytes.now }
    ensures ok { IfOk result (λ seen. IsReply bytes.now seen.id seen.status (seen_body seen.body)) }
    ensures bad { OnErr result
        ((id number : ℕ) (body : Body) → IsReply bytes.now id number body → ⊥) }
{
    let minor = bytes[5];
    let little = is_little(bytes);
    let mut view = View::new(&bytes[HEADER as usize..], little, HEADER);
    let told = view_head(&mut view, minor)?;
    let body = view_body(&view, minor, little);
    Ok(ReplyView {
        id: told.id,
        status: told.status,
        body,
    })
}

// Whether the message is little-endian: bit 0 of its flags.
#[tactic(auto, unfolding(giop_frame::specs::Part::is_little))]
fn is_little(bytes: &[u8]) -> bool
    requires { HEADER ≤ length bytes.now }
    ensures { result ≡ little_flag bytes.now }
{
    bytes[6] & 1 == 1
}

// The id and the status, and the service contexts, which stand first before version 1.2.
fn view_head(view: &mut View<'_>, minor: u8) -> Result<Told, PartFault>
    ensures ok { IfOk result (λ told. IsHead minor told.id told.status view.old view.new) }
    ensures bad { OnErr result
        ((id number : ℕ) (after : Cursor) → IsHead minor id number view.old after → ⊥) }
{
    if minor == MINOR {
        view_new_head(view)
    } else {
        view_old_head(view)
    }
}

// The head of a Reply of GIOP 1.2.
fn view_new_head(view: &mut View<'_>) -> Result<Told, PartFault>
    ensures ok { IfOk result (λ told. NewHead told.id told.status view.old view.new) }
    ensures bad { OnErr result
        ((id number : ℕ) (after : Cursor) → NewHead id number view.old after → ⊥) }
{
    let told = view_told(view)?;
    pass_counted(view)?;
    Ok(told)
}

// The head of a Reply of an older version.
fn view_old_head(view: &mut View<'_>) -> Result<Told, PartFault>
    ensures ok { IfOk result (λ told. OldHead told.id told.status view.old view.new) }
    ensures bad { OnErr result
        ((id number : ℕ) (after : Cursor) → OldHead id number view.old after → ⊥) }
{
    pass_counted(view)?;
    let told = view_told(view)?;
    Ok(told)
}

// The id and the status.
fn view_told(view: &mut View<'_>) -> Result<Told, PartFault>
    ensures ok { IfOk result (λ told. IsTold told.id told.status view.old view.new) }
    ensures bad { OnErr result
        ((id number : ℕ) (after : Cursor) → IsTold id number view.old after → ⊥) }
{
    let id = view.ulong()?;
    let status = view.ulong()?;
    Ok(Told { id, status })
}

// The body behind the head: in GIOP 1.2 it begins at the next multiple of 8, and in older versions right there; where the
// message ends before that, it is empty and has the message's end as its place.
fn view_body<'a>(view: &View<'a>, minor: u8, little: bool) -> BodyView<'a>
    requires { view.now.little ≡ little }
    ensures { seen_body result ≡ body_at minor view.now }
{
    let rest = view.rest();
    let place = view.place();
    let unit = if minor == MINOR { 8 } else { 1 };
    let padding = (unit - place % unit) % unit;
    let passed = padding.min(rest.len() as u64);
    let (_, bytes) = rest.split_at(passed as usize);
    BodyView {
        bytes,
        little,
        base: place + passed,
    }
}
