//! All that the data of an IIOP profile says.
ghost use Rattle.std.specs.Prelude.{◌≡◌, ◌≢◌, None, IfOk, IfErr, OnOk, MatchOption};
ghost use Rattle.ior_text.specs.declared.body.ProfileBody.{ProfileBody};
ghost use Rattle.ior_text.specs.Body.{ReadsBody, HasBody};
ghost use Rattle.ior_text.specs.Parts.{ReadsParts, HasParts};

use crate::body::ProfileBody;
use crate::components::read_components;
use crate::profile::TAG_INTERNET_IOP;
use crate::written_encapsulation::enter;
use cdr_core::{CdrFault, Reader};
use poa_base::{Bytes, Items, Profile, WantMemory};
use std::alloc::Global;

/// The body of an IIOP profile, and its components (CORBA 3.3 Part 2, 7.6.2), each a tag and octets as a profile is; none
/// before version 1.1.
#[derive(Drop)]
pub struct ProfileParts {
    pub body: ProfileBody,
    pub components: Items<Profile>,
}

/// All that a profile says; none where its tag isn't 0 or its data can't be read.
pub fn read_parts(alloc: Global, profile: &Profile) -> Result<Option<ProfileParts>, WantMemory>
    ensures { IfOk result
        (λ found. MatchOption found ((body : ProfileBody) → HasBody profile.now body → ⊥) (λ parts. HasParts profile.now parts)) }
{
    if profile.tag != TAG_INTERNET_IOP {
        return Ok(None);
    }
    let Some(mut reader) = enter(profile.bytes.as_slice()) else {
        return Ok(None);
    };
    match read_fields(alloc, &mut reader) {
        Ok(parts) => Ok(Some(parts)),
        Err(fault) => unreadable(fault),
    }
}

/// The fields of a body, and the components.
fn read_fields(alloc: Global, reader: &mut Reader) -> Result<ProfileParts, CdrFault>
    ensures parts { IfOk result (λ parts. ReadsParts parts reader.old) }
    ensures bad { IfErr result (λ fault. fault ≢ CdrFault.WantMemory → (body : ProfileBody) → ReadsBody body reader.old → ⊥) }
{
    let major = reader.octet()?;
    let minor = reader.octet()?;
    let host = Bytes::from_vec(reader.text(alloc)?);
    let port = reader.ushort()?;
    let key = Bytes::from_vec(reader.octets(alloc)?);
    let components = read_components(alloc, reader, major, minor)?;
    let body = ProfileBody {
        major,
        minor,
        host,
        port,
        key,
    };
    Ok(ProfileParts { body, components })
}

/// Nothing, unless it was memory that lacked.
fn unreadable(fault: CdrFault) -> Result<Option<ProfileParts>, WantMemory>
    ensures none { IfOk result (λ parts. parts ≡ None) }
    ensures other { OnOk result (fault ≢ CdrFault.WantMemory) }
{
    match fault {
        CdrFault::WantMemory => Err(WantMemory),
        _ => Ok(None),
    }
}
