//! Everything that is owed is paid.
ghost use Rattle.std.specs.Prelude.{◌≡◌, ◌≢◌, ℕ, Some, Err, MatchOption, ⊤};
ghost use Rattle.seat_lock.specs.Seats.{view};
ghost use Rattle.outside.specs.Cause.{HasCause};
ghost use Rattle.poa_history.specs.declared.Givens.{Givens};
ghost use Rattle.poa_shared.specs.Seats.{IsIdle};
ghost use Rattle.poa_shared.specs.Seen.{HoldsConnection};
ghost use Rattle.poa_session.specs.Saying.{HasSaid};
ghost use Rattle.poa_session.specs.Paying.{PaysAll};
ghost use Rattle.poa_session.specs.Stopping.{Looks};

use crate::collecting::collect_all;
use outside::Link;
use poa_base::SessionEnd;
use poa_core::Phase;
use poa_shared::{Bell, Front, Seat, Shared};
use std::alloc::Global;
use std::sync::Wait;

/// Writes the replies that are owed, as they are decided, until none is. Else how the session breaks off.
pub(crate) fn pay<R: Wait, L: Link>(
    rt: &R,
    alloc: Global,
    shared: &Shared,
    seat: &mut Seat,
    link: &mut L,
    conn: u32,
) -> Result<(), SessionEnd>
    requires seat { IsIdle shared.now seat.old }
    requires conn { HoldsConnection (view seat.old) conn }
    requires said { HasSaid conn (view seat.old) }
    ensures seat { IsIdle shared.now seat.new }
    ensures conn { HoldsConnection (view seat.new) conn }
    ensures pays { (g : Givens) → (view seat.old).givens ≡ Some g
        → PaysAll g conn (view seat.old) (L.shown link.old) (view seat.new) (L.shown link.new)
        result }
    ensures failed { HasCause (L.shown link.old).write_faults (L.shown link.new).write_faults
        (result ≡ Err SessionEnd.WriteFault) }
    ensures unread { result ≢ Err SessionEnd.ReadFault }
{
    for _ in rt.forever() {
        let bell = Bell::Connection(conn);
        let heard = shared.listen(seat, bell);
        let owed = match collect_all(rt, alloc, shared, seat, link, conn) {
            Ok(owed) => owed,
            Err(broken) => return Err(broken),
        };
        if owed == 0 {
            return Ok(());
        }
        let end = look(rt, shared, seat);
        if let Some(worker) = given_up(end) {
            return Err(SessionEnd::Abandoned { worker });
        }
        shared.sleep(rt, bell, heard);
    }
    unreachable!()
}

// The worker that gave the run up, where that is how a session ends.
fn given_up(end: Option<SessionEnd>) -> Option<u32>
    ensures { MatchOption result ⊤ (λ worker. end ≡ Some (SessionEnd.Abandoned worker)) }
{
    match end {
        Some(SessionEnd::Abandoned { worker }) => Some(worker),
        _ => None,
    }
}

// How the run ends a session, where it does.
fn look<R: Wait>(rt: &R, shared: &Shared, seat: &mut Seat) -> Option<SessionEnd>
    requires seat { IsIdle shared.now seat.old }
    ensures seat { IsIdle shared.now seat.new }
    ensures looks { (g : Givens) → (view seat.old).givens ≡ Some g
        → Looks g (view seat.old) (view seat.new) result }
    ensures holds { (c : ℕ) → HoldsConnection (view seat.old) c
        → HoldsConnection (view seat.new) c }
    ensures unfaulted { (result ≢ Some SessionEnd.WriteFault)
        × (result ≢ Some SessionEnd.ReadFault) }
{
    let front = shared.front(rt);
    look_within(rt, shared, &front, seat)
}

/// How the run ends a session, where it does: a `shutdown` was admitted, or a worker gave the run up. The front is held.
pub(crate) fn look_within<R: Wait>(
    rt: &R,
    shared: &Shared,
    front: &Front<'_>,
    seat: &mut Seat,
) -> Option<SessionEnd>
    requires seat { IsIdle shared.now seat.old }
    ensures seat { IsIdle shared.now seat.new }
    ensures looks { (g : Givens) → (view seat.old).givens ≡ Some g
        → Looks g (view seat.old) (view seat.new) result }
    ensures holds { (c : ℕ) → HoldsConnection (view seat.old) c
        → HoldsConnection (view seat.new) c }
    ensures unfaulted { (result ≢ Some SessionEnd.WriteFault)
        × (result ≢ Some SessionEnd.ReadFault) }
{
    match shared.phase_within(rt, front, seat) {
        Phase::Running | Phase::Full => None,
        Phase::Shut => Some(SessionEnd::Shut),
        Phase::Abandoned { worker } => Some(SessionEnd::Abandoned { worker }),
    }
}
