//! The object key that a profile tells.
ghost use Rattle.std.specs.Prelude.{option_map, IfOk, IfSome, OnErr};
ghost use Rattle.ior_text.specs.declared.body.ProfileBody.{ProfileBody};
ghost use Rattle.ior_text.specs.Body.{ReadsBody};
ghost use Rattle.ior_text.specs.Key.{TellsKey, IsKeyOr};
ghost use Rattle.ior_text.specs.Seen.{seen_profile, ReadsKey, KeyLies};

use crate::components::pass_components;
use crate::seen_encapsulation::enter;
use crate::seen_profile::ProfileView;
use cdr_core::{PartFault, View};

/// The tag of an IIOP profile, TAG_INTERNET_IOP.
const TAG_INTERNET_IOP: u32 = 0;

/// The object key of a profile, lent from the profile's data; none where its tag isn't 0 or its data can't be
/// read.
pub fn view_key<'a>(profile: &ProfileView<'a>) -> Option<&'a [u8]>
    ensures key { IsKeyOr (TellsKey (seen_profile profile.now)) (option_map (λ key. key.now) result) }
    ensures lent { IfSome result (λ key. KeyLies (seen_profile profile.now) key.now) }
{
    if profile.tag != TAG_INTERNET_IOP {
        return None;
    }
    let mut view = enter(profile.data)?;
    match view_fields(&mut view) {
        Ok(key) => Some(key),
        Err(_) => None,
    }
}

// The object key among the fields of a body, which are read to the last one.
fn view_fields<'a>(view: &mut View<'a>) -> Result<&'a [u8], PartFault>
    ensures ok { IfOk result (λ key. ReadsKey key.now view.old) }
    ensures bad { OnErr result ((body : ProfileBody) → ReadsBody body view.old → ⊥) }
{
    let major = view.octet()?;
    let minor = view.octet()?;
    view.text()?;
    view.ushort()?;
    let key = view.octets()?;
    pass_components(view, major, minor)?;
    Ok(key)
}
