//! A register: one long long.
ghost use Rattle.std.specs.Prelude.{◌≡◌, IfOk, OnErr};
ghost use Rattle.servant_kinds.specs.Register.{register_act, set_register, add_register};

use crate::argument::longlong;
use crate::exception::{raise, refuse_arguments};
use crate::object;
use poa_base::{Body, Datum, Outcome, WantMemory};
use std::alloc::Global;

pub(crate) const TYPE_ID: &[u8] = b"IDL:poad/Register:1.0";

const OVERFLOW: &[u8] = b"IDL:poad/Overflow:1.0";

/// `get`, `set` and `add`.
pub(crate) fn act(
    alloc: Global,
    value: &mut i64,
    operation: &[u8],
    body: &Body,
) -> Result<Outcome, WantMemory>
    ensures ok { IfOk result (λ outcome. register_act value.old operation.now body.now ≡ (value.new, outcome)) }
    ensures err { OnErr result (value.new ≡ value.old) }
{
    if operation == b"get".as_slice() {
        Ok(Outcome::Value(Some(Datum::Long(*value))))
    } else if operation == b"set".as_slice() {
        Ok(set(value, longlong(body)))
    } else if operation == b"add".as_slice() {
        add(alloc, value, longlong(body))
    } else {
        object::act(alloc, TYPE_ID, operation, body)
    }
}

/// Puts a number in the place of the value.
fn set(value: &mut i64, argument: Option<i64>) -> Outcome
    ensures { set_register value.old argument ≡ (value.new, result) }
{
    let Some(number) = argument else {
        return refuse_arguments();
    };
    *value = number;
    Outcome::Value(None)
}

/// Adds a number to the value, where the sum is a long long.
fn add(alloc: Global, value: &mut i64, argument: Option<i64>) -> Result<Outcome, WantMemory>
    ensures ok { IfOk result (λ outcome. add_register value.old argument ≡ (value.new, outcome)) }
    ensures err { OnErr result (value.new ≡ value.old) }
{
    let Some(number) = argument else {
        return Ok(refuse_arguments());
    };
    let Some(sum) = value.checked_add(number) else {
        return raise(alloc, OVERFLOW);
    };
    *value = sum;
    Ok(Outcome::Value(Some(Datum::Long(sum))))
}
