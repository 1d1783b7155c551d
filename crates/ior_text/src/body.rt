//! The data of an IIOP profile.
ghost use Rattle.std.specs.Prelude.{MatchOption, IfOk};
ghost use Rattle.ior_text.specs.declared.body.ProfileBody.{ProfileBody};
ghost use Rattle.ior_text.specs.Body.{HasBody};

use crate::parts::read_parts;
use poa_base::{Bytes, Profile, WantMemory};
use std::alloc::Global;

/// What an IIOP profile says of its object: the version, where the server listens, and the object's key (CORBA 3.3
/// Part 2, 9.7.2).
#[derive(Drop)]
pub struct ProfileBody {
    pub major: u8,
    pub minor: u8,
    pub host: Bytes,
    pub port: u16,
    pub key: Bytes,
}

/// The body of a profile; none where its tag isn't 0 or its data can't be read. From version 1.1 on the
/// components have to be there, each whole; what stands behind the last field is ignored.
pub fn read_body(alloc: Global, profile: &Profile) -> Result<Option<ProfileBody>, WantMemory>
    ensures { IfOk result
        (λ found. MatchOption found ((body : ProfileBody) → HasBody profile.now body → ⊥) (λ body. HasBody profile.now body)) }
{
    match read_parts(alloc, profile)? {
        Some(parts) => Ok(Some(parts.body)),
        None => Ok(None),
    }
}
