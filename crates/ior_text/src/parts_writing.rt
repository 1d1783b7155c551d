//! The profile that is written of all that one says.
ghost use Rattle.std.specs.Prelude.{◌≡◌, ⊤, IfOk, OnOk, MatchBool};
ghost use Rattle.cdr_core.specs.Fields.{with_fields};
ghost use Rattle.ior_text.specs.Body.{has_components};
ghost use Rattle.ior_text.specs.Parts.{HasParts, AreParts, FitsBody, FitComponents, body_fields, with_components, parts_data, profile_with};

use crate::body::ProfileBody;
use crate::components::is_with_components;
use crate::parts::ProfileParts;
use crate::profile::TAG_INTERNET_IOP;
use crate::writing::{write_octets, write_profiles, write_text};
use cdr_core::Writer;
use poa_base::{Bytes, Profile, WantMemory};
use std::alloc::Global;

/// The profile of these parts, big-endian. `WantMemory` is also the answer to a host, a key or a component of 2^31 bytes or
/// more, which no CDR writer takes.
pub fn write_parts(alloc: Global, parts: &ProfileParts) -> Result<Profile, WantMemory>
    ensures profile { IfOk result (λ profile. profile ≡ profile_with parts.now) }
    // What is written is read as these parts, where the version has components or there are none.
    ensures back { AreParts parts.now → OnOk result (HasParts (profile_with parts.now) parts.now) }
{
    let mut writer = Writer::new(alloc, false, 0);
    put_body(&mut writer, &parts.body)?;
    put_components(&mut writer, parts)?;
    Ok(Profile {
        tag: TAG_INTERNET_IOP,
        bytes: Bytes::from_vec(writer.into_bytes()),
    })
}

// The byte order, and the fields of a body.
fn put_body(writer: &mut Writer, body: &ProfileBody) -> Result<(), WantMemory>
    ensures written { OnOk result (writer.new ≡ with_fields (body_fields body.now) writer.old) }
    ensures fits { OnOk result (FitsBody body.now) }
{
    let ProfileBody {
        major,
        minor,
        host,
        port,
        key,
    } = body;
    writer.octet(0)?;
    writer.octet(*major)?;
    writer.octet(*minor)?;
    write_text(writer, host.as_slice())?;
    writer.ushort(*port)?;
    write_octets(writer, key.as_slice())
}

// The components, in the versions that have them.
fn put_components(writer: &mut Writer, parts: &ProfileParts) -> Result<(), WantMemory>
    ensures written { OnOk result (writer.new ≡ with_components parts.now writer.old) }
    ensures fits { OnOk result
        (MatchBool (has_components parts.now.body.major parts.now.body.minor) (FitComponents parts.now.components) ⊤) }
{
    if is_with_components(parts.body.major, parts.body.minor) {
        write_profiles(writer, parts.components.as_slice())?;
    }
    Ok(())
}
