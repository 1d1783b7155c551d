//! The profile that is written.
ghost use Rattle.std.specs.Prelude.{◌≡◌, IfOk};
ghost use Rattle.ior_text.specs.Profile.{profile_of, profile_data as data_of};

use cdr_core::Writer;
use poa_base::{Bytes, Endpoint, Profile, WantMemory};
use std::alloc::Global;

/// The tag of an IIOP profile, TAG_INTERNET_IOP.
pub const TAG_INTERNET_IOP: u32 = 0;

/// The profile of the object with this key at this endpoint: version 1.2, big-endian, with no components.
/// `WantMemory` is also the answer to a host or a key of 2^31 bytes or more, which no CDR writer takes.
pub fn write_profile(alloc: Global, endpoint: &Endpoint, key: &[u8]) -> Result<Profile, WantMemory>
    ensures { IfOk result (λ profile. profile ≡ profile_of endpoint.now key.now) }
{
    let bytes = profile_data(alloc, endpoint, key)?;
    Ok(Profile {
        tag: TAG_INTERNET_IOP,
        bytes: Bytes::from_vec(bytes),
    })
}

// The profile's data, an encapsulation.
fn profile_data(alloc: Global, endpoint: &Endpoint, key: &[u8]) -> Result<Vec<u8>, WantMemory>
    ensures { IfOk result (λ bytes. bytes.items ≡ data_of endpoint.now key.now) }
{
    let mut writer = Writer::new(alloc, false, 0);
    writer.octet(0)?;
    writer.octet(1)?;
    writer.octet(2)?;
    writer.put_text(endpoint.host.as_slice())?;
    writer.ushort(endpoint.port)?;
    writer.put_octets(key)?;
    writer.ulong(0)?;
    Ok(writer.into_bytes())
}
