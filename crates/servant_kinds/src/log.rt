//! A log: a list of entries, to which one is added at the end.
ghost use Rattle.std.specs.Prelude.{◌≡◌, IfOk, OnErr};
ghost use Rattle.servant_kinds.specs.Log.{room_of, log_act, append_log, read_log};

use crate::argument::{octets, ulong};
use crate::exception::{raise, refuse_arguments};
use crate::object;
use poa_base::{Body, Bytes, Datum, Items, Outcome, TryClone, WantMemory};
use std::alloc::Global;

pub(crate) const TYPE_ID: &[u8] = b"IDL:poad/Log:1.0";

const FULL: &[u8] = b"IDL:poad/Full:1.0";

const RANGE: &[u8] = b"IDL:poad/Range:1.0";

/// What a log may hold: the lengths of its entries, and one for each.
const LIMIT: u64 = 65_536;

/// The room that is left beside these entries.
pub(crate) fn room(entries: &Items<Bytes>) -> u64
    ensures { result ≡ room_of entries.now }
{
    let mut room = LIMIT;
    for entry in entries.as_slice() {
        room = room.saturating_sub((entry.len() as u64).saturating_add(1));
    }
    room
}

/// `append` and `read`. `room` is the room that is left.
pub(crate) fn act(
    alloc: Global,
    entries: &mut Items<Bytes>,
    room: &mut u64,
    operation: &[u8],
    body: &Body,
) -> Result<Outcome, WantMemory>
    requires { room.old ≡ room_of entries.old }
    ensures ok { IfOk result (λ outcome. log_act entries.old operation.now body.now ≡ (entries.new, outcome)) }
    ensures err { OnErr result (entries.new ≡ entries.old) }
    ensures room { room.new ≡ room_of entries.new }
{
    if operation == b"append".as_slice() {
        let argument = octets(alloc, body)?;
        append(alloc, entries, room, argument)
    } else if operation == b"read".as_slice() {
        read(alloc, entries, ulong(body))
    } else {
        object::act(alloc, TYPE_ID, operation, body)
    }
}

/// Adds an entry at the end, where there is room for it.
fn append(
    alloc: Global,
    entries: &mut Items<Bytes>,
    room: &mut u64,
    argument: Option<Bytes>,
) -> Result<Outcome, WantMemory>
    requires { room.old ≡ room_of entries.old }
    ensures ok { IfOk result (λ outcome. append_log entries.old argument ≡ (entries.new, outcome)) }
    ensures err { OnErr result (entries.new ≡ entries.old) }
    ensures room { room.new ≡ room_of entries.new }
{
    let Some(entry) = argument else {
        return Ok(refuse_arguments());
    };
    let size = entry.len() as u64 + 1;
    if size > *room {
        return raise(alloc, FULL);
    }
    entries.push(entry)?;
    *room -= size;
    Ok(Outcome::Value(Some(Datum::Ulong(entries.len() as u32))))
}

/// The entry of this number, from 0 on.
fn read(alloc: Global, entries: &Items<Bytes>, argument: Option<u32>) -> Result<Outcome, WantMemory>
    ensures { IfOk result (λ outcome. outcome ≡ read_log entries.now argument) }
{
    let Some(number) = argument else {
        return Ok(refuse_arguments());
    };
    let Some(entry) = entries.as_slice().get(number as usize) else {
        return raise(alloc, RANGE);
    };
    Ok(Outcome::Value(Some(Datum::Octets(entry.try_clone()?))))
}
