//! A reference in an encapsulation.
ghost use Rattle.std.specs.Prelude.{◌≡◌, ◌≢◌, ◌⊎◌, IfOk, IfErr};
ghost use Rattle.ior_text.specs.Encapsulation.{Encloses, Spoils, FaultBy};

use crate::fault::IorFault;
use crate::reference_fields::read_reference;
use crate::written_encapsulation::enter;
use cdr_core::CdrFault;
use poa_base::Ior;
use std::alloc::Global;

/// The reference that an encapsulation begins with.
pub(crate) fn read_encapsulation(alloc: Global, bytes: &[u8]) -> Result<Ior, IorFault>
    ensures ior { IfOk result (λ ior. Encloses bytes.now ior) }
    ensures bad { IfErr result (λ fault. FaultBy (Spoils bytes.now) fault) }
{
    let Some(mut reader) = enter(bytes) else {
        return Err(IorFault::Malformed { at: 0 });
    };
    match read_reference(alloc, &mut reader) {
        Ok(ior) => Ok(ior),
        Err(fault) => Err(fault_at(reader.place(), fault)),
    }
}

/// The field at `at` can't be read, unless it was memory that lacked.
fn fault_at(at: u64, fault: CdrFault) -> IorFault
    ensures { ((fault ≡ CdrFault.WantMemory) × (result ≡ IorFault.WantMemory))
        ⊎ ((fault ≢ CdrFault.WantMemory) × (result ≡ IorFault.Malformed at)) }
{
    match fault {
        CdrFault::WantMemory => IorFault::WantMemory,
        _ => IorFault::Malformed { at },
    }
}
