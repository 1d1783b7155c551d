//! The operations that every object has (CORBA 3.3 Part 1, 8.3).
ghost use Rattle.std.specs.Prelude.{◌≡◌, IfOk};
ghost use Rattle.servant_kinds.specs.Object.{object_outcome};

use crate::argument::text;
use crate::exception::{refuse_arguments, refuse_operation};
use poa_base::{Body, Datum, Outcome, WantMemory};
use std::alloc::Global;

/// The type of every object.
const OBJECT: &[u8] = b"IDL:omg.org/CORBA/Object:1.0";

/// What an operation does that is none of the servant's own, whose type id is given.
pub(crate) fn act(
    alloc: Global,
    type_id: &[u8],
    operation: &[u8],
    body: &Body,
) -> Result<Outcome, WantMemory>
    ensures { IfOk result (λ outcome. outcome ≡ object_outcome type_id.now operation.now body.now) }
{
    if operation == b"_is_a".as_slice() {
        let Some(asked) = text(alloc, body)? else {
            return Ok(refuse_arguments());
        };
        let asked = asked.as_slice();
        Ok(Outcome::Value(Some(Datum::Flag(asked == type_id || asked == OBJECT))))
    } else if operation == b"_non_existent".as_slice() {
        Ok(Outcome::Value(Some(Datum::Flag(false))))
    } else {
        Ok(refuse_operation())
    }
}
