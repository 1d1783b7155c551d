//! The call of a LocateRequest: CORBA 3.3 Part 2, 9.4.5.
ghost use Rattle.std.specs.Prelude.{◌≡◌, ◌≤◌, length, IfOk, OnErr};
ghost use Rattle.giop_frame.specs.Part.{minor_of as version_of};
ghost use Rattle.giop_msg.specs.Header.{message_type};
ghost use Rattle.giop_msg.specs.Call.{Asks};
ghost use Rattle.giop_msg.specs.Reading.{NoCall};
ghost use Rattle.giop_msg.specs.Seen.{asked_by};

use crate::seen::Seen;
use crate::target::view_addressed;
use crate::view_fault::Unreadable;
use crate::viewing::{enter, is_little, minor_of};
use giop_answer::kind::{HEADER, LOCATE_REQUEST};
use poa_base::Head;

/// The call that a LocateRequest makes.
pub(crate) fn view_locate<'a>(bytes: &'a [u8]) -> Result<Seen<'a>, Unreadable>
    requires whole { HEADER ≤ length bytes.now }
    requires locate { message_type bytes.now ≡ LOCATE_REQUEST }
    requires known { version_of bytes.now ≤ 2 }
    ensures ok { IfOk result (λ seen. Asks bytes.now (asked_by seen)) }
    ensures bad { OnErr result (NoCall bytes.now) }
{
    let minor = minor_of(bytes);
    let mut view = enter(bytes);
    let id = view.ulong()?;
    let target = view_addressed(&mut view, minor)?;
    let head = Head {
        id,
        minor,
        little: is_little(bytes),
        flags: 0,
        locate: true,
    };
    Ok(Seen::Locate { head, target })
}
