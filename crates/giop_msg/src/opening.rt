//! The fields of a Request in front of its target: CORBA 3.3 Part 2, 9.4.2.
ghost use Rattle.std.specs.Prelude.{◌≡◌, ℕ, None, IfOk, IfSome, OnErr, OnOk};
ghost use Rattle.cdr_core.specs.Cursor.{Cursor};
ghost use Rattle.giop_msg.specs.Opening.{HasFlags, IsAsked, IsEarlierOpening, IsNewestOpening, IsOpening, IsReserved};

use crate::contexts::pass_counted;
use crate::view_fault::Unreadable;
use cdr_core::{PartFault, View};
use giop_answer::kind::MINOR;

/// The response flags that ask for a reply once it stands.
pub(crate) const REPLY_ASKED: u8 = 3;

/// The first fields of a Request.
#[derive(Drop)]
pub(crate) struct Opening {
    pub(crate) id: u32,
    pub(crate) flags: u8,
}

/// The first fields of a Request of this minor version, and what is reserved behind them.
pub(crate) fn view_opening(view: &mut View<'_>, minor: u8) -> Result<Opening, Unreadable>
    ensures ok { IfOk result
        (λ opening. IsOpening minor opening.id opening.flags view.old view.new) }
    ensures bad { OnErr result
        ((id flags : ℕ) (after : Cursor) → IsOpening minor id flags view.old after → ⊥) }
{
    if minor == MINOR {
        Ok(view_newest(view)?)
    } else {
        view_earlier(view, minor)
    }
}

// In version 1.2: the id, the response flags and three octets that are reserved.
fn view_newest(view: &mut View<'_>) -> Result<Opening, PartFault>
    ensures ok { IfOk result
        (λ opening. IsNewestOpening opening.id opening.flags view.old view.new) }
    ensures bad { OnErr result
        ((id flags : ℕ) (after : Cursor) → IsNewestOpening id flags view.old after → ⊥) }
{
    let id = view.ulong()?;
    let flags = view.octet()?;
    view.octet()?;
    view.octet()?;
    view.octet()?;
    Ok(Opening { id, flags })
}

// In the versions before it: the service contexts, which aren't kept, the id, and whether a reply is asked.
fn view_earlier(view: &mut View<'_>, minor: u8) -> Result<Opening, Unreadable>
    ensures ok { IfOk result
        (λ opening. IsEarlierOpening minor opening.id opening.flags view.old view.new) }
    ensures bad { OnErr result
        ((id flags : ℕ) (after : Cursor) → IsEarlierOpening minor id flags view.old after → ⊥) }
{
    pass_counted(view)?;
    let opening = view_asked(view)?;
    pass_reserved(view, minor)?;
    Ok(opening)
}

// The id, and the octet that says whether a reply is asked.
fn view_asked(view: &mut View<'_>) -> Result<Opening, Unreadable>
    ensures ok { IfOk result (λ opening. IsAsked opening.id opening.flags view.old view.new) }
    ensures bad { OnErr result
        ((id flags : ℕ) (after : Cursor) → IsAsked id flags view.old after → ⊥) }
{
    let id = view.ulong()?;
    let asked = view.octet()?;
    match flags_of(asked) {
        Some(flags) => Ok(Opening { id, flags }),
        None => Err(Unreadable),
    }
}

// The response flags that stand for that octet, which is a boolean.
fn flags_of(asked: u8) -> Option<u8>
    ensures flags { IfSome result (λ flags. HasFlags asked flags) }
    ensures none { result ≡ None → (flags : ℕ) → HasFlags asked flags → ⊥ }
{
    match asked {
        0 => Some(0),
        1 => Some(REPLY_ASKED),
        _ => None,
    }
}

// The octets that are reserved: none in version 1.0, three in 1.1.
fn pass_reserved(view: &mut View<'_>, minor: u8) -> Result<(), PartFault>
    ensures ok { OnOk result (IsReserved minor view.old view.new) }
    ensures bad { OnErr result ((after : Cursor) → IsReserved minor view.old after → ⊥) }
{
    if minor == 0 {
        return Ok(());
    }
    view.octet()?;
    view.octet()?;
    view.octet()?;
    Ok(())
}
