//! The reference of a text that a command is given.
ghost use Rattle.std.specs.Prelude.{◌≡◌, ◌⊎◌, Err};
ghost use Rattle.ior_text.specs.Reference.{reference_of as location_reference};
ghost use Rattle.poad_files.specs.Referring.{GivesReference, GivesWritten, Refuses};

use crate::status::Status;
use ior_text::{IorFault, LocFault, read_corbaloc, read_ior};
use poa_base::Ior;
use std::alloc::Global;

/// The reference of a text: a corbaloc text where it begins as one, else the written form.
pub fn read_reference(alloc: Global, text: &[u8]) -> Result<Ior, Status>
    ensures { GivesReference text.now result }
{
    match read_corbaloc(alloc, text) {
        Ok(ior) => Ok(ior),
        Err(fault) => read_other(alloc, text, fault),
    }
}

// The reference of a text that was read as no corbaloc text.
fn read_other(alloc: Global, text: &[u8], fault: LocFault) -> Result<Ior, Status>
    requires { (fault ≡ LocFault.WantMemory) ⊎ (location_reference text.now ≡ Err fault) }
    ensures { GivesReference text.now result }
{
    match fault {
        LocFault::NoScheme => read_written(alloc, text),
        LocFault::WantMemory => Err(Status::WantMemory),
        LocFault::BadAddress { .. } | LocFault::BadKey { .. } => Err(Status::LocRefused(fault)),
    }
}

/// The reference whose written form a text is.
pub(crate) fn read_written(alloc: Global, text: &[u8]) -> Result<Ior, Status>
    ensures { GivesWritten text.now result }
{
    match read_ior(alloc, text) {
        Ok(ior) => Ok(ior),
        Err(fault) => Err(refusal(fault)),
    }
}

// The status where a text is no written form.
fn refusal(fault: IorFault) -> Status
    ensures { Refuses result fault }
{
    match fault {
        IorFault::WantMemory => Status::WantMemory,
        IorFault::NoPrefix
        | IorFault::OddDigits
        | IorFault::BadDigit { .. }
        | IorFault::Malformed { .. } => Status::TextRefused(fault),
    }
}
