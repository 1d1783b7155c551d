//! A caller: one connection.
ghost use Rattle.std.specs.Prelude.{◌≡◌};
ghost use Rattle.seat_lock.specs.Seats.{view};
ghost use Rattle.poa_shared.specs.Seats.{IsIdle};
ghost use Rattle.poa_shared.specs.Seen.{HoldsConnection};

use crate::asking;
use crate::task::Task;
use poa_base::{Call, Reply, WantMemory};
use poa_core::Collected;
use poa_shared::{Bell, Seat, Shared};
use std::alloc::Global;
use std::sync::Wait;

/// The bytes of a message that asks `add`.
const SIZE: u64 = 72;

/// Awaits the next reply of a connection.
fn await_reply<R: Wait>(rt: &R, shared: &Shared, seat: &mut Seat, conn: u32) -> Reply
    requires seat { IsIdle shared.now seat.old }
    requires conn { HoldsConnection (view seat.old) conn }
    ensures seat { IsIdle shared.now seat.new }
    ensures conn { HoldsConnection (view seat.new) conn }
{
    for _ in rt.forever() {
        let heard = shared.listen(seat, Bell::Connection(conn));
        if let Collected::Reply { reply, .. } = shared.collect(rt, seat, conn) {
            return reply;
        }
        shared.sleep(rt, Bell::Connection(conn), heard);
    }
    unreachable!()
}

/// Asks a call and awaits its reply; none where it isn't taken.
fn ask<R: Wait>(rt: &R, shared: &Shared, seat: &mut Seat, conn: u32, call: Call) -> Option<Reply>
    requires seat { IsIdle shared.now seat.old }
    requires conn { HoldsConnection (view seat.old) conn }
    ensures seat { IsIdle shared.now seat.new }
    ensures conn { HoldsConnection (view seat.new) conn }
{
    match shared.arrive(rt, seat, conn, call, SIZE) {
        Ok(_) => Some(await_reply(rt, shared, seat, conn)),
        Err(_) => None,
    }
}

/// Asks the calls of a caller one after the other. Gives the replies.
fn ask_all<R: Wait>(
    rt: &R,
    alloc: Global,
    shared: &Shared,
    seat: &mut Seat,
    conn: u32,
    caller: u32,
    calls: u32,
) -> Result<Vec<Reply>, WantMemory>
    requires seat { IsIdle shared.now seat.old }
    requires conn { HoldsConnection (view seat.old) conn }
    ensures seat { IsIdle shared.now seat.new }
    ensures conn { HoldsConnection (view seat.new) conn }
{
    let mut replies = Vec::new(alloc);
    for number in 0..calls {
        let call = asking::call(alloc, caller, number)?;
        if let Some(reply) = ask(rt, shared, seat, conn, call) {
            replies.push(reply)?;
        }
    }
    Ok(replies)
}

/// Has the requests of all held, and asks one. Whether it is taken.
fn hold_and_ask<R: Wait>(
    rt: &R,
    alloc: Global,
    shared: &Shared,
    seat: &mut Seat,
    conn: u32,
    number: u32,
) -> Result<bool, WantMemory>
    requires seat { IsIdle shared.now seat.old }
    requires conn { HoldsConnection (view seat.old) conn }
    ensures seat { IsIdle shared.now seat.new }
    ensures conn { HoldsConnection (view seat.new) conn }
{
    drop(ask(rt, shared, seat, conn, asking::hold(alloc, number)?));
    let request = asking::add_one(alloc, number, number)?;
    Ok(shared.arrive(rt, seat, conn, request, SIZE).is_ok())
}

/// Has the requests of all held, asks one, and has them served again. Gives the reply to the one, which comes last; none
/// where a call isn't taken.
fn ask_held<R: Wait>(
    rt: &R,
    alloc: Global,
    shared: &Shared,
    seat: &mut Seat,
    conn: u32,
    number: u32,
) -> Result<Option<Reply>, WantMemory>
    requires seat { IsIdle shared.now seat.old }
    requires conn { HoldsConnection (view seat.old) conn }
    ensures seat { IsIdle shared.now seat.new }
    ensures conn { HoldsConnection (view seat.new) conn }
{
    if !hold_and_ask(rt, alloc, shared, seat, conn, number)? {
        return Ok(None);
    }
    let call = asking::serve(alloc, number)?;
    if ask(rt, shared, seat, conn, call).is_none() {
        return Ok(None);
    }
    Ok(Some(await_reply(rt, shared, seat, conn)))
}

/// The same, so many times over. Gives the replies to the requests.
fn hold_all<R: Wait>(
    rt: &R,
    alloc: Global,
    shared: &Shared,
    seat: &mut Seat,
    conn: u32,
    rounds: u32,
) -> Result<Vec<Reply>, WantMemory>
    requires seat { IsIdle shared.now seat.old }
    requires conn { HoldsConnection (view seat.old) conn }
    ensures seat { IsIdle shared.now seat.new }
    ensures conn { HoldsConnection (view seat.new) conn }
{
    let mut replies = Vec::new(alloc);
    for number in 0..rounds {
        if let Some(reply) = ask_held(rt, alloc, shared, seat, conn, number)? {
            replies.push(reply)?;
        }
    }
    Ok(replies)
}

/// Enters, asks the calls of a task, and leaves. Gives the replies.
pub(crate) fn call_all<R: Wait>(
    rt: &R,
    alloc: Global,
    shared: &Shared,
    seat: &mut Seat,
    task: Task,
) -> Result<Vec<Reply>, WantMemory>
    requires { IsIdle shared.now seat.old }
    ensures { IsIdle shared.now seat.new }
{
    let Ok(conn) = shared.enter(rt, seat) else {
        return Err(WantMemory);
    };
    let replies = match task {
        Task::Caller { number, calls } => ask_all(rt, alloc, shared, seat, conn, number, calls),
        Task::Holder { rounds } => hold_all(rt, alloc, shared, seat, conn, rounds),
        Task::Worker { .. } | Task::Quitter { .. } => Ok(Vec::new(alloc)),
    };
    shared.leave(rt, seat, conn);
    replies
}
