//! References as fields.
ghost use Rattle.std.specs.Prelude.{IfOk, OnErr, option_map};
ghost use Rattle.ior_text.specs.Tagged.{ProfilesBreak};
ghost use Rattle.ior_text.specs.ReferenceFields.{IorBreaks};
ghost use Rattle.ior_text.specs.Seen.{seen_profile, SeesProfile, SeesAmong};

use crate::seen_profile::{ProfileView, view_profile};
use cdr_core::{PartFault, View};

/// The profile at an index of the reference that stands at the view (CORBA 3.3 Part 2, 7.6.2), which is read
/// whole; none where the reference has no such profile. Where a field can't be read the view is left at the
/// first such field.
pub fn view_reference<'a>(
    view: &mut View<'a>,
    index: u32,
) -> Result<Option<ProfileView<'a>>, PartFault>
    ensures ok { IfOk result (λ found. SeesProfile index (option_map seen_profile found) view.old view.new) }
    ensures bad { OnErr result (IorBreaks view.old view.new.place) }
{
    view.text()?;
    let count = view.ulong()?;
    let found = view_profiles(view, count, index)?;
    Ok(found)
}

// Of so many profiles the one at an index.
pub(crate) fn view_profiles<'a>(
    view: &mut View<'a>,
    count: u32,
    index: u32,
) -> Result<Option<ProfileView<'a>>, PartFault>
    ensures ok { IfOk result (λ found. SeesAmong count index (option_map seen_profile found) view.old view.new) }
    ensures bad { OnErr result (ProfilesBreak count view.old view.new.place) }
{
    let mut found = None;
    for i in 0..count {
        let profile = view_profile(view)?;
        if i == index {
            found = Some(profile);
        }
    }
    Ok(found)
}
