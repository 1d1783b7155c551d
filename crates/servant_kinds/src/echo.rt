//! An echo, which keeps nothing.
ghost use Rattle.std.specs.Prelude.{◌≡◌, IfOk};
ghost use Rattle.servant_kinds.specs.Act.{echo_act};

use crate::argument::octets;
use crate::exception::refuse_arguments;
use crate::object;
use poa_base::{Body, Datum, Outcome, WantMemory};
use std::alloc::Global;

pub(crate) const TYPE_ID: &[u8] = b"IDL:poad/Echo:1.0";

/// `echo` and `ping`.
pub(crate) fn act(alloc: Global, operation: &[u8], body: &Body) -> Result<Outcome, WantMemory>
    ensures { IfOk result (λ outcome. outcome ≡ echo_act operation.now body.now) }
{
    if operation == b"echo".as_slice() {
        let Some(octets) = octets(alloc, body)? else {
            return Ok(refuse_arguments());
        };
        Ok(Outcome::Value(Some(Datum::Octets(octets))))
    } else if operation == b"ping".as_slice() {
        Ok(Outcome::Value(None))
    } else {
        object::act(alloc, TYPE_ID, operation, body)
    }
}
