//! The target of a request or a locate: CORBA 3.3 Part 2, 9.4.2.1.
ghost use Rattle.std.specs.Prelude.{◌≡◌, IfOk, OnErr, option_map};
ghost use Rattle.giop_msg.specs.Target.{IsTarget, IsAddress, IsAddressed};
ghost use Rattle.giop_msg.specs.Reading.{NoTarget, NoAddress, NoneAddressed};

use crate::view_fault::Unreadable;
use cdr_core::{PartFault, View};
use giop_answer::kind::MINOR;
use ior_text::{view_key, view_profile, view_reference};

/// How a target is told: by its key, by a profile, or by a reference.
pub(crate) const KEY_ADDRESS: u16 = 0;

pub(crate) const PROFILE_ADDRESS: u16 = 1;

pub(crate) const REFERENCE_ADDRESS: u16 = 2;

/// The key that the target of a message of this minor version gives: before version 1.2 the target is the key.
pub(crate) fn view_addressed<'a>(
    view: &mut View<'a>,
    minor: u8,
) -> Result<Option<&'a [u8]>, Unreadable>
    ensures ok { IfOk result
        (λ target. IsAddressed minor (option_map (λ k. k.now) target) view.old view.new) }
    ensures bad { OnErr result (NoneAddressed minor view.old) }
{
    if minor == MINOR {
        view_target(view)
    } else {
        Ok(Some(view.octets()?))
    }
}

// The key that a target gives; none where it is told by a profile or by a reference from which no key can be
// read. Unreadable where the target's fields can't be read, or it is told in another way.
fn view_target<'a>(view: &mut View<'a>) -> Result<Option<&'a [u8]>, Unreadable>
    ensures ok { IfOk result
        (λ target. IsTarget (option_map (λ k. k.now) target) view.old view.new) }
    ensures bad { OnErr result (NoTarget view.old) }
{
    let disposition = view.ushort()?;
    let target = view_address(view, disposition)?;
    Ok(target)
}

// What stands behind the disposition.
fn view_address<'a>(view: &mut View<'a>, disposition: u16) -> Result<Option<&'a [u8]>, Unreadable>
    ensures ok { IfOk result
        (λ target. IsAddress disposition (option_map (λ k. k.now) target) view.old view.new) }
    ensures bad { OnErr result (NoAddress disposition view.old) }
{
    match disposition {
        KEY_ADDRESS => Ok(Some(view.octets()?)),
        PROFILE_ADDRESS => Ok(by_profile(view)?),
        REFERENCE_ADDRESS => Ok(by_reference(view)?),
        _ => Err(Unreadable),
    }
}

// The key that a profile tells.
fn by_profile<'a>(view: &mut View<'a>) -> Result<Option<&'a [u8]>, PartFault>
    ensures ok { IfOk result
        (λ target. IsAddress PROFILE_ADDRESS (option_map (λ k. k.now) target) view.old view.new) }
    ensures bad { OnErr result (NoAddress PROFILE_ADDRESS view.old) }
{
    let profile = view_profile(view)?;
    Ok(view_key(&profile))
}

// The key that the profile at an index tells, of a reference.
fn by_reference<'a>(view: &mut View<'a>) -> Result<Option<&'a [u8]>, PartFault>
    ensures ok { IfOk result
        (λ target. IsAddress REFERENCE_ADDRESS (option_map (λ k. k.now) target) view.old view.new) }
    ensures bad { OnErr result (NoAddress REFERENCE_ADDRESS view.old) }
{
    let index = view.ulong()?;
    match view_reference(view, index)? {
        Some(profile) => Ok(view_key(&profile)),
        None => Ok(None),
    }
}
