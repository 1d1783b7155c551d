//! Tagged profiles.
ghost use Rattle.std.specs.Prelude.{IfOk, OnErr};
ghost use Rattle.ior_text.specs.Tagged.{ReadsProfile, ProfileBreaks};
ghost use Rattle.ior_text.specs.Seen.{seen_profile};

use cdr_core::{PartFault, View};

/// A tagged profile, whose data lie in a message.
#[derive(Clone, Copy)]
pub struct ProfileView<'a> {
    pub tag: u32,
    pub data: &'a [u8],
}

/// The tagged profile that stands at the view: its tag and its data. Where one of them can't be read the view
/// is left there.
pub fn view_profile<'a>(view: &mut View<'a>) -> Result<ProfileView<'a>, PartFault>
    ensures ok { IfOk result (λ profile. ReadsProfile (seen_profile profile) view.old view.new) }
    ensures bad { OnErr result (ProfileBreaks view.old view.new.place) }
{
    let tag = view.ulong()?;
    let data = view.octets()?;
    Ok(ProfileView { tag, data })
}
