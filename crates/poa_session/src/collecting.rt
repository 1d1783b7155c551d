//! Replies that are given and written.
ghost use Rattle.std.specs.Prelude.{◌≡◌, ◌≢◌, Some, Err, OnOk};
ghost use Rattle.seat_lock.specs.Seats.{view};
ghost use Rattle.outside.specs.Cause.{HasCause};
ghost use Rattle.poa_history.specs.declared.Givens.{Givens};
ghost use Rattle.poa_shared.specs.Seats.{IsIdle};
ghost use Rattle.poa_shared.specs.Seen.{HoldsConnection};
ghost use Rattle.poa_session.specs.Giving.{AreGiven, Gives, GivesNext, IsKept};
ghost use Rattle.poa_session.specs.Paying.{Pays};
ghost use Rattle.poa_session.specs.Saying.{HasSaid, IsGiven};

use crate::replies::Replies;
use outside::{Link, write_all};
use poa_base::{SessionEnd, WantMemory};
use poa_core::Collected;
use poa_shared::{Front, Seat, Shared};
use std::alloc::Global;
use std::sync::Wait;

/// Collects the replies that are decided, and writes them in one piece. How many calls are owed a reply still, or how the
/// session breaks off.
pub(crate) fn collect_all<R: Wait, L: Link>(
    rt: &R,
    alloc: Global,
    shared: &Shared,
    seat: &mut Seat,
    link: &mut L,
    conn: u32,
) -> Result<u64, SessionEnd>
    requires seat { IsIdle shared.now seat.old }
    requires conn { HoldsConnection (view seat.old) conn }
    requires said { HasSaid conn (view seat.old) }
    ensures seat { IsIdle shared.now seat.new }
    ensures conn { HoldsConnection (view seat.new) conn }
    ensures pays { (g : Givens) → (view seat.old).givens ≡ Some g
        → Pays g conn (view seat.old) (L.shown link.old) (view seat.new) (L.shown link.new) result }
    ensures failed { HasCause (L.shown link.old).write_faults (L.shown link.new).write_faults
        (result ≡ Err SessionEnd.WriteFault) }
    ensures unread { result ≢ Err SessionEnd.ReadFault }
{
    let mut replies = Replies::new(alloc);
    let Ok(owed) = gather(rt, shared, seat, conn, &mut replies.given) else {
        return Err(SessionEnd::WantMemory);
    };
    let Ok(()) = replies.spell(alloc) else {
        return Err(SessionEnd::WantMemory);
    };
    if !write_all(link, replies.bytes.as_slice()) {
        return Err(SessionEnd::WriteFault);
    }
    Ok(owed)
}

// Collects the replies that are decided, under one hold of the front.
fn gather<R: Wait>(
    rt: &R,
    shared: &Shared,
    seat: &mut Seat,
    conn: u32,
    given: &mut Vec<Collected>,
) -> Result<u64, WantMemory>
    requires seat { IsIdle shared.now seat.old }
    requires conn { HoldsConnection (view seat.old) conn }
    requires said { HasSaid conn (view seat.old) }
    ensures seat { IsIdle shared.now seat.new }
    ensures conn { HoldsConnection (view seat.new) conn }
    ensures given { AreGiven given.old.items → AreGiven given.new.items }
    ensures gives { (g : Givens) → (view seat.old).givens ≡ Some g
        → Gives g conn (view seat.old) (view seat.new) given.old.items given.new.items result }
{
    let front = shared.front(rt);
    gather_within(rt, shared, &front, seat, conn, given)
}

/// Collects the replies that are decided, and keeps them behind the others. How many calls are owed a reply still. The front
/// is held.
pub(crate) fn gather_within<R: Wait>(
    rt: &R,
    shared: &Shared,
    front: &Front<'_>,
    seat: &mut Seat,
    conn: u32,
    given: &mut Vec<Collected>,
) -> Result<u64, WantMemory>
    requires seat { IsIdle shared.now seat.old }
    requires conn { HoldsConnection (view seat.old) conn }
    requires said { HasSaid conn (view seat.old) }
    ensures seat { IsIdle shared.now seat.new }
    ensures conn { HoldsConnection (view seat.new) conn }
    ensures given { AreGiven given.old.items → AreGiven given.new.items }
    ensures gives { (g : Givens) → (view seat.old).givens ≡ Some g
        → Gives g conn (view seat.old) (view seat.new) given.old.items given.new.items result }
{
    for _ in rt.forever() {
        let Ok(next) = collect_next(rt, shared, front, seat, conn, given) else {
            return Err(WantMemory);
        };
        if let Some(owed) = next {
            return Ok(owed);
        }
    }
    unreachable!()
}

// Collects the next reply, and keeps it behind the others. Where none is decided, how many calls are owed one. The front is held.
fn collect_next<R: Wait>(
    rt: &R,
    shared: &Shared,
    front: &Front<'_>,
    seat: &mut Seat,
    conn: u32,
    given: &mut Vec<Collected>,
) -> Result<Option<u64>, WantMemory>
    requires seat { IsIdle shared.now seat.old }
    requires conn { HoldsConnection (view seat.old) conn }
    requires said { HasSaid conn (view seat.old) }
    ensures seat { IsIdle shared.now seat.new }
    ensures conn { HoldsConnection (view seat.new) conn }
    ensures given { AreGiven given.old.items → AreGiven given.new.items }
    ensures next { (g : Givens) → (view seat.old).givens ≡ Some g
        → GivesNext g conn (view seat.old) (view seat.new) given.old.items given.new.items result }
{
    let collected = shared.collect_within(rt, front, seat, conn);
    keep(given, collected)
}

// Keeps a reply that was collected behind the others.
fn keep(given: &mut Vec<Collected>, collected: Collected) -> Result<Option<u64>, WantMemory>
    requires { IsGiven collected }
    ensures given { AreGiven given.old.items → AreGiven given.new.items }
    ensures kept { IsKept collected given.old.items given.new.items result }
{
    if let Collected::Nothing { owed } = &collected {
        return Ok(Some(*owed));
    }
    given.push(collected)?;
    Ok(None)
}
