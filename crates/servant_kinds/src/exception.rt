//! The exceptions that servants raise (CORBA 3.3 Part 1, 8.12).
ghost use Rattle.std.specs.Prelude.{◌≡◌, IfOk};
ghost use Rattle.poa_base.specs.declared.Outcome.TheVariants.{User};
ghost use Rattle.servant_kinds.specs.Exceptions.{unknown_operation, bad_arguments, fault_outcome};

use poa_base::minors::{BAD_ARGUMENTS, FAULT_SERVANT, UNKNOWN_OPERATION};
use poa_base::{Bytes, Completion, ExcName, Outcome, SysExc, WantMemory};
use std::alloc::Global;

/// The servant has no operation of this name.
pub(crate) fn refuse_operation() -> Outcome
    ensures { result ≡ unknown_operation }
{
    Outcome::System(SysExc {
        name: ExcName::BadOperation,
        minor: UNKNOWN_OPERATION,
        done: Completion::No,
    })
}

/// The arguments can't be read.
pub(crate) fn refuse_arguments() -> Outcome
    ensures { result ≡ bad_arguments }
{
    Outcome::System(SysExc {
        name: ExcName::Marshal,
        minor: BAD_ARGUMENTS,
        done: Completion::No,
    })
}

/// What a fault servant answers to everything. Whether the operation had an effect isn't known.
pub(crate) fn fail() -> Outcome
    ensures { result ≡ fault_outcome }
{
    Outcome::System(SysExc {
        name: ExcName::Unknown,
        minor: FAULT_SERVANT,
        done: Completion::Maybe,
    })
}

/// A user exception, by its repository id.
pub(crate) fn raise(alloc: Global, id: &[u8]) -> Result<Outcome, WantMemory>
    ensures { IfOk result (λ outcome. outcome ≡ User id.now) }
{
    let id = Bytes::from_vec(Vec::from_slice(alloc, id)?);
    Ok(Outcome::User(id))
}
