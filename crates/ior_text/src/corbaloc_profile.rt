//! The profile that is written of an address.
ghost use Rattle.std.specs.Prelude.{◌≡◌, IfOk, OnOk};
ghost use Rattle.cdr_core.specs.Fields.{with_fields};
ghost use Rattle.ior_text.specs.CorbalocProfile.{component_fields, profile_data as data_of, profile_of};

use crate::address::Address;
use cdr_core::Writer;
use poa_base::{Bytes, Profile, WantMemory};
use std::alloc::Global;

/// The tag of an IIOP profile, TAG_INTERNET_IOP.
const TAG_INTERNET_IOP: u32 = 0;

/// The profile of the object with this key at this address. `WantMemory` is also the answer to a host or a key of 2^31
/// bytes or more, which no CDR writer takes.
pub(crate) fn write_profile(
    alloc: Global,
    address: &Address,
    key: &[u8],
) -> Result<Profile, WantMemory>
    ensures { IfOk result (λ profile. profile ≡ profile_of address.now key.now) }
{
    let bytes = profile_data(alloc, address, key)?;
    Ok(Profile {
        tag: TAG_INTERNET_IOP,
        bytes: Bytes::from_vec(bytes),
    })
}

// The profile's data, an encapsulation.
fn profile_data(alloc: Global, address: &Address, key: &[u8]) -> Result<Vec<u8>, WantMemory>
    ensures { IfOk result (λ bytes. bytes.items ≡ data_of address.now key.now) }
{
    let mut writer = Writer::new(alloc, false, 0);
    writer.octet(0)?;
    writer.octet(1)?;
    writer.octet(address.minor)?;
    writer.put_text(address.endpoint.host.as_slice())?;
    writer.ushort(address.endpoint.port)?;
    writer.put_octets(key)?;
    put_components(&mut writer, address.minor)?;
    Ok(writer.into_bytes())
}

// No components, in the versions that have a count of them.
fn put_components(writer: &mut Writer, minor: u8) -> Result<(), WantMemory>
    ensures { OnOk result (writer.new ≡ with_fields (component_fields minor) writer.old) }
{
    if minor >= 1 {
        writer.ulong(0)?;
    }
    Ok(())
}
