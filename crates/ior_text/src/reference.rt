//! The reference of a location.
ghost use Rattle.std.specs.Prelude.{◌≡◌, map, IfOk};
ghost use Rattle.ior_text.specs.CorbalocProfile.{profile_of};
ghost use Rattle.ior_text.specs.Reference.{reference_at};

use crate::address::Address;
use crate::corbaloc_profile::write_profile;
use crate::location::Location;
use poa_base::{Bytes, Ior, Items, Profile, WantMemory};
use std::alloc::Global;

/// The reference of the object at this location: no type id, and a profile for each address.
pub(crate) fn write_reference(alloc: Global, location: &Location) -> Result<Ior, WantMemory>
    ensures { IfOk result (λ ior. ior ≡ reference_at location.now) }
{
    let profiles = write_profiles(
        alloc,
        location.addresses.as_slice(),
        location.key.as_slice(),
    )?;
    Ok(Ior {
        type_id: Bytes::new(alloc),
        profiles,
    })
}

fn write_profiles(
    alloc: Global,
    addresses: &[Address],
    key: &[u8],
) -> Result<Items<Profile>, WantMemory>
    ensures { IfOk result
        (λ profiles. profiles ≡ map (λ address. profile_of address key.now) addresses.now) }
{
    let mut profiles = Items::new(alloc);
    for address in addresses {
        let profile = write_profile(alloc, address, key)?;
        profiles.push(profile)?;
    }
    Ok(profiles)
}
