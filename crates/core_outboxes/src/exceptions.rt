//! The exceptions that end a call.
ghost use Rattle.std.specs.Prelude.{◌≡◌, option_copied};
ghost use Rattle.poa_history.specs.Replies as replies;

use poa_base::{Call, Completion, ExcName, Outcome, Reply, SysExc, minors};

/// There is no adapter of that path.
pub(crate) const NOT_EXIST: SysExc = SysExc {
    name: ExcName::ObjectNotExist,
    minor: minors::NO_ADAPTER,
    done: Completion::No,
};

/// The adapter activator raised an exception.
pub(crate) const ACTIVATOR_RAISED: SysExc = SysExc {
    name: ExcName::ObjAdapter,
    minor: minors::ACTIVATOR_RAISED,
    done: Completion::No,
};

/// The adapter is being destroyed.
pub(crate) const ADAPTER_DYING: SysExc = SysExc {
    name: ExcName::Transient,
    minor: minors::ADAPTER_DYING,
    done: Completion::No,
};

/// The servant is active under another id.
pub(crate) const SERVANT_DOUBLE: SysExc = SysExc {
    name: ExcName::ObjAdapter,
    minor: minors::SERVANT_DOUBLE,
    done: Completion::No,
};

/// The number of an administrator's line; 0 of any other call.
pub fn number_of(call: Option<&Call>) -> u64
    ensures { result ≡ replies.number_of (option_copied call.entry) }
{
    match call {
        Some(Call::Line { number, .. }) => *number,
        Some(Call::Request { .. } | Call::Locate { .. }) | None => 0,
    }
}

/// A system exception; to a locate the object is unknown.
pub fn raised_to(call: Option<&Call>, exception: SysExc) -> Reply
    ensures { result ≡ replies.raised_to (option_copied call.entry) exception }
{
    match call {
        Some(Call::Locate { .. }) => Reply::UnknownObject,
        Some(Call::Request { .. } | Call::Line { .. }) | None => {
            Reply::Outcome(Outcome::System(exception))
        }
    }
}
