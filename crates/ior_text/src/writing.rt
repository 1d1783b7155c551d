//! From a reference to its text.
ghost use Rattle.std.specs.Prelude.{◌≡◌, ◌+◌, ◌^◌, ◌<◌, length, All, IfOk, OnOk};
ghost use Rattle.cdr_core.specs.Field.{ulong, text, octets};
ghost use Rattle.cdr_core.specs.Draft.{with_field};
ghost use Rattle.hex.specs.Hex.{IsBytes};
ghost use Rattle.ior_text.specs.Written.{with_profiles, encapsulation, ior_text, IsIor, IsProfile};

use cdr_core::Writer;
use poa_base::{Bytes, Ior, Profile, WantMemory};
use std::alloc::Global;

/// Writes a reference: `IOR:`, small digits, big-endian. `WantMemory` is also the answer to a field of 2^31
/// bytes or more, which no CDR writer takes.
pub fn write_ior(alloc: Global, ior: &Ior) -> Result<Bytes, WantMemory>
    ensures text { IfOk result (λ text. text ≡ ior_text ior.now) }
    // Whatever is written can be read back.
    ensures ior { OnOk result (IsIor ior.now) }
{
    let mut text = Vec::from_slice(alloc, b"IOR:")?;
    let bytes = write_encapsulation(alloc, ior)?;
    let digits = hex::encode(alloc, &bytes)?;
    text.extend_from_slice(digits.as_bytes())?;
    Ok(Bytes::from_vec(text))
}

/// The encapsulation of a reference.
fn write_encapsulation(alloc: Global, ior: &Ior) -> Result<Vec<u8>, WantMemory>
    ensures bytes { IfOk result (λ bytes. bytes.items ≡ encapsulation ior.now) }
    ensures ior { OnOk result (IsIor ior.now) }
{
    let mut writer = Writer::new(alloc, false, 0);
    writer.octet(0)?;
    write_text(&mut writer, ior.type_id.as_slice())?;
    write_profiles(&mut writer, ior.profiles.as_slice())?;
    Ok(writer.into_bytes())
}

/// The count of the profiles, and each of them.
pub(crate) fn write_profiles(writer: &mut Writer, profiles: &[Profile]) -> Result<(), WantMemory>
    ensures written { OnOk result (writer.new ≡ with_profiles profiles.now (with_field (ulong (length profiles.now)) writer.old)) }
    ensures count { OnOk result (length profiles.now < 2 ^ 32) }
    ensures profiles { OnOk result (All IsProfile profiles.now) }
{
    let Ok(count) = u32::try_from(profiles.len()) else {
        return Err(WantMemory);
    };
    writer.ulong(count)?;
    for profile in profiles {
        writer.ulong(profile.tag)?;
        write_octets(writer, profile.bytes.as_slice())?;
    }
    Ok(())
}

/// A string, where CDR can carry it.
pub(crate) fn write_text(writer: &mut Writer, bytes: &[u8]) -> Result<(), WantMemory>
    ensures written { OnOk result (writer.new ≡ with_field (text bytes.now) writer.old) }
    ensures fits { OnOk result (length bytes.now + 1 < 2 ^ 32) }
    ensures bytes { IsBytes bytes.now }
{
    writer.put_text(bytes)
}

/// A sequence of octets, where CDR can carry it.
pub(crate) fn write_octets(writer: &mut Writer, bytes: &[u8]) -> Result<(), WantMemory>
    ensures written { OnOk result (writer.new ≡ with_field (octets bytes.now) writer.old) }
    ensures fits { OnOk result (length bytes.now < 2 ^ 32) }
    ensures bytes { IsBytes bytes.now }
{
    writer.put_octets(bytes)
}
