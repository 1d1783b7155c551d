//! The outcomes that have no members.
ghost use Rattle.std.specs.Prelude.{◌≡◌, false, IfOk};
ghost use Rattle.poa_base.specs.declared.Outcome.TheVariants.{User, System};
ghost use Rattle.poa_base.specs.declared.Completion.TheVariants.{No};
ghost use Rattle.naming_context.specs.Outcomes as outcomes;

use poa_base::minors::{BAD_ARGUMENTS, BAD_KEY, NOT_ACTIVE, UNKNOWN_OPERATION};
use poa_base::{Bytes, Completion, Datum, ExcName, Outcome, SysExc, WantMemory};
use std::alloc::Global;

/// TRANSIENT 11 of this server: no more components can be bound, or no more contexts made.
pub const NAMES_FULL: u32 = 0xFFFF_F00B;

/// The type id of a context.
pub(crate) const CONTEXT_TYPE: &[u8] = b"IDL:omg.org/CosNaming/NamingContext:1.0";

/// The type of every object.
const OBJECT: &[u8] = b"IDL:omg.org/CORBA/Object:1.0";

const INVALID_NAME: &[u8] = b"IDL:omg.org/CosNaming/NamingContext/InvalidName:1.0";

const ALREADY_BOUND: &[u8] = b"IDL:omg.org/CosNaming/NamingContext/AlreadyBound:1.0";

/// A result without a value.
pub(crate) fn nothing() -> Outcome
    ensures { result ≡ outcomes.nothing }
{
    Outcome::Value(None)
}

/// Whether a context is of the type of this id.
pub(crate) fn is_a(type_id: &[u8]) -> Outcome
    ensures { result ≡ outcomes.is_a type_id.now }
{
    let is = type_id == CONTEXT_TYPE || type_id == OBJECT;
    Outcome::Value(Some(Datum::Flag(is)))
}

/// A context is there.
pub(crate) fn is_there() -> Outcome
    ensures { result ≡ outcomes.truth false }
{
    Outcome::Value(Some(Datum::Flag(false)))
}

/// The name isn't one that a context takes.
pub(crate) fn invalid_name(alloc: Global) -> Result<Outcome, WantMemory>
    ensures { IfOk result (λ outcome. outcome ≡ outcomes.invalid_name) }
{
    raise(alloc, INVALID_NAME)
}

/// The last component is bound.
pub(crate) fn already_bound(alloc: Global) -> Result<Outcome, WantMemory>
    ensures { IfOk result (λ outcome. outcome ≡ outcomes.already_bound) }
{
    raise(alloc, ALREADY_BOUND)
}

/// A user exception, by its repository id.
fn raise(alloc: Global, id: &[u8]) -> Result<Outcome, WantMemory>
    ensures { IfOk result (λ outcome. outcome ≡ User id.now) }
{
    let id = Bytes::from_vec(Vec::from_slice(alloc, id)?);
    Ok(Outcome::User(id))
}

/// No more components can be bound, or no more contexts made.
pub(crate) fn names_full() -> Outcome
    ensures { result ≡ outcomes.names_full }
{
    refuse(ExcName::Transient, NAMES_FULL)
}

/// A context has no such operation.
pub(crate) fn unknown_operation() -> Outcome
    ensures { result ≡ outcomes.unknown_operation }
{
    refuse(ExcName::BadOperation, UNKNOWN_OPERATION)
}

/// The arguments can't be read.
pub(crate) fn bad_arguments() -> Outcome
    ensures { result ≡ outcomes.bad_arguments }
{
    refuse(ExcName::Marshal, BAD_ARGUMENTS)
}

/// The target is no spelling of a key.
pub(crate) fn no_key() -> Outcome
    ensures { result ≡ outcomes.no_key }
{
    refuse(ExcName::ObjectNotExist, BAD_KEY)
}

/// The key is none of a context.
pub(crate) fn no_context() -> Outcome
    ensures { result ≡ outcomes.no_context }
{
    refuse(ExcName::ObjectNotExist, NOT_ACTIVE)
}

fn refuse(name: ExcName, minor: u32) -> Outcome
    ensures { result ≡ System (record { name = name; minor = minor; done = No }) }
{
    Outcome::System(SysExc {
        name,
        minor,
        done: Completion::No,
    })
}
