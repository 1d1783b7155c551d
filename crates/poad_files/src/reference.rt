//! The lines of a reference.
ghost use Rattle.std.specs.Prelude.{◌≡◌, ◌++◌, IfOk, OnOk};
ghost use Rattle.poad_files.specs.Shown.{Adds, ProfilesShown, Shows, type_line};

use crate::printed::put_printed;
use crate::profile::put_profile;
use poa_base::{Bytes, Ior, Profile, WantMemory};
use std::alloc::Global;

/// The printed form of a reference: `type ID`, and for each profile `profile I iiop MAJOR.MINOR HOST PORT`
/// and the line of its key, or `profile I tag T h:HEX`. The line of a key is `key persistent PATH OID`,
/// `key transient RUN NUMBER PATH OID` or, where it is no key or a name of its path doesn't show, `key h:HEX`.
pub fn show(alloc: Global, ior: &Ior) -> Result<Bytes, WantMemory>
    ensures { IfOk result (λ text. Shows ior.now text) }
{
    let mut out = Vec::new(alloc);
    put_type(&mut out, ior.type_id.as_slice())?;
    put_profiles(&mut out, ior.profiles.as_slice())?;
    Ok(Bytes::from_vec(out))
}

/// Adds the line of the type id.
fn put_type(out: &mut Vec<u8>, type_id: &[u8]) -> Result<(), WantMemory>
    ensures { OnOk result (out.new.items ≡ out.old.items ++ type_line type_id.now) }
{
    out.extend_from_slice(b"type ")?;
    put_printed(out, type_id)?;
    out.extend_from_slice(b"\n")
}

/// Adds the lines of all profiles.
fn put_profiles(out: &mut Vec<u8>, profiles: &[Profile]) -> Result<(), WantMemory>
    ensures { OnOk result (Adds (ProfilesShown 0 profiles.now) out.old.items out.new.items) }
{
    for (index, profile) in profiles.iter().enumerate() {
        put_profile(out, index, profile)?;
    }
    Ok(())
}
