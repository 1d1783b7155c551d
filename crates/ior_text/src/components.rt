//! The components of a profile.
ghost use Rattle.std.specs.Prelude.{◌≡◌, ◌≢◌, ⊤, [], true, IfOk, IfErr, OnErr, MatchBool};
ghost use Rattle.ior_text.specs.Components.{ReadsComponents, HasComponents};
ghost use Rattle.ior_text.specs.Body.{has_components};

use crate::reference_fields::read_profiles;
use crate::seen_reference::view_profiles;
use cdr_core::{CdrFault, PartFault, Reader, View};
use poa_base::{Items, Profile};
use std::alloc::Global;

/// Whether profiles of this version have components.
pub(crate) fn is_with_components(major: u8, minor: u8) -> bool
    ensures { result ≡ has_components major minor }
{
    major > 1 || (major == 1 && minor >= 1)
}

/// The components of a profile of this version, which stand at the reader; none before version 1.1.
pub(crate) fn read_components(
    alloc: Global,
    reader: &mut Reader<'_>,
    major: u8,
    minor: u8,
) -> Result<Items<Profile>, CdrFault>
    ensures components { IfOk result (λ components.
        MatchBool (has_components major minor) (ReadsComponents components reader.old) (components ≡ [])) }
    ensures bad { IfErr result (λ fault. fault ≢ CdrFault.WantMemory
        → (has_components major minor ≡ true) × (HasComponents reader.old → ⊥)) }
{
    if !is_with_components(major, minor) {
        return Ok(Items::new(alloc));
    }
    let components = read_counted(alloc, reader)?;
    Ok(components)
}

// The count, and so many components.
fn read_counted(alloc: Global, reader: &mut Reader<'_>) -> Result<Items<Profile>, CdrFault>
    ensures components { IfOk result (λ components. ReadsComponents components reader.old) }
    ensures bad { IfErr result (λ fault. fault ≢ CdrFault.WantMemory → HasComponents reader.old → ⊥) }
{
    let count = reader.ulong()?;
    let components = read_profiles(alloc, reader, count)?;
    Ok(components)
}

/// Passes over the components of a profile of this version; there are none before version 1.1.
pub(crate) fn pass_components(view: &mut View<'_>, major: u8, minor: u8) -> Result<(), PartFault>
    ensures components { IfOk result (λ _. MatchBool (has_components major minor) (HasComponents view.old) ⊤) }
    ensures bad { OnErr result ((has_components major minor ≡ true) × (HasComponents view.old → ⊥)) }
{
    if is_with_components(major, minor) {
        pass_counted(view)?;
    }
    Ok(())
}

// Passes over the count and so many components.
fn pass_counted(view: &mut View<'_>) -> Result<(), PartFault>
    ensures components { IfOk result (λ _. HasComponents view.old) }
    ensures bad { OnErr result (HasComponents view.old → ⊥) }
{
    let count = view.ulong()?;
    // They are read as profiles, of which the first is lent; only whether all are there is asked.
    let _first = view_profiles(view, count, 0)?;
    Ok(())
}
