//! References as fields.
ghost use Rattle.std.specs.Prelude.{◌≡◌, length, IfOk, IfErr};
ghost use Rattle.ior_text.specs.Breaking.{StopsBy};
ghost use Rattle.ior_text.specs.Tagged.{ReadsProfile, ReadsProfiles, ProfileBreaks, ProfilesBreak};
ghost use Rattle.ior_text.specs.ReferenceFields.{ReadsIor, IorBreaks};

use cdr_core::{CdrFault, Reader};
use poa_base::{Bytes, Ior, Items, Profile};
use std::alloc::Global;

/// The reference that stands at the reader: its type id and its profiles (CORBA 3.3 Part 2, 7.6.2). Where a
/// field can't be read the reader is left at the first such field.
pub fn read_reference(alloc: Global, reader: &mut Reader<'_>) -> Result<Ior, CdrFault>
    ensures ior { IfOk result (λ ior. ReadsIor ior reader.old reader.new) }
    ensures bad { IfErr result (λ fault. StopsBy (IorBreaks reader.old) reader.new fault) }
{
    let type_id = Bytes::from_vec(reader.text(alloc)?);
    let count = reader.ulong()?;
    let profiles = read_profiles(alloc, reader, count)?;
    Ok(Ior { type_id, profiles })
}

/// A tagged profile that stands at the reader: its tag and its data. Where one of them can't be read the
/// reader is left there.
pub fn read_profile(alloc: Global, reader: &mut Reader<'_>) -> Result<Profile, CdrFault>
    ensures profile { IfOk result (λ profile. ReadsProfile profile reader.old reader.new) }
    ensures bad { IfErr result (λ fault. StopsBy (ProfileBreaks reader.old) reader.new fault) }
{
    let tag = reader.ulong()?;
    let bytes = Bytes::from_vec(reader.octets(alloc)?);
    Ok(Profile { tag, bytes })
}

// So many profiles. Room is taken for each as it comes, and not for the count.
pub(crate) fn read_profiles(
    alloc: Global,
    reader: &mut Reader<'_>,
    count: u32,
) -> Result<Items<Profile>, CdrFault>
    ensures profiles { IfOk result (λ profiles. ReadsProfiles profiles reader.old reader.new) }
    ensures count { IfOk result (λ profiles. length profiles ≡ count) }
    ensures bad { IfErr result (λ fault. StopsBy (ProfilesBreak count reader.old) reader.new fault) }
{
    let mut profiles = Items::new(alloc);
    for _ in 0..count {
        let profile = read_profile(alloc, reader)?;
        profiles.push(profile)?;
    }
    Ok(profiles)
}
