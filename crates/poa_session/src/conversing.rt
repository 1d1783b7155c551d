//! A session from its entering to its end.
ghost use Rattle.std.specs.Prelude.{◌≡◌, ◌<◌, [], Some, length};
ghost use Rattle.seat_lock.specs.Seats.{view};
ghost use Rattle.outside.specs.Cause.{HasCause};
ghost use Rattle.poa_history.specs.declared.Givens.{Givens};
ghost use Rattle.poa_shared.specs.Seats.{IsIdle};
ghost use Rattle.poa_shared.specs.Seen.{HoldsConnection};
ghost use Rattle.poa_shared.specs.Helping.{Aids, IsReady};
ghost use Rattle.session_laws.specs.Expecting.{Expects};
ghost use Rattle.session_laws.specs.HearingPieces.{KnowsFirst, OfIntake};
ghost use Rattle.poa_session.specs.Saying.{HasSaid};
ghost use Rattle.poa_session.specs.Settling.{Converses};

use crate::buffers::Buffers;
use crate::closing::settle;
use crate::connection::Connection;
use crate::flow::Flow;
use crate::rounds::round;
use outside::Link;
use poa_base::{SessionEnd, WantMemory};
use poa_shared::{Aid, Seat, Shared};
use session_laws::Input;
use std::mem;
use std::sync::Wait;

/// Serves a connection round by round, until one of the two sides ends the session. How it ended.
pub(crate) fn converse<R: Wait, L: Link>(
    conn: &Connection<'_, R>,
    seat: &mut Seat,
    aid: &mut Aid,
    link: &mut L,
) -> SessionEnd
    requires seat { IsIdle conn.now.shared.now seat.old }
    requires aid { IsReady conn.now.shared.now aid.old.seat }
    requires conn { HoldsConnection (view seat.old) conn.now.number }
    requires said { HasSaid conn.now.number (view seat.old) }
    ensures seat { IsIdle conn.now.shared.now seat.new }
    ensures ready { IsReady conn.now.shared.now aid.new.seat }
    ensures aids { Aids aid.old.seat aid.new.seat }
    ensures conn { HoldsConnection (view seat.new) conn.now.number }
    ensures converses { (g : Givens) → (view seat.old).givens ≡ Some g
        → Converses g conn.now.peer conn.now.number (view seat.old) (L.shown link.old)
        (view seat.new) (L.shown link.new) result }
    ensures read { (g : Givens) → (view seat.old).givens ≡ Some g
        → HasCause (L.shown link.old).read_faults (L.shown link.new).read_faults
        (result ≡ SessionEnd.ReadFault) }
    ensures written { HasCause (L.shown link.old).write_faults (L.shown link.new).write_faults
        (result ≡ SessionEnd.WriteFault) }
{
    let mut input = Input::new(conn.alloc, conn.peer);
    let Ok(mut buffers) = Buffers::new(conn.alloc) else {
        return SessionEnd::WantMemory;
    };
    if hang(conn.rt, conn.shared, link, conn.number).is_err() {
        return SessionEnd::WantMemory;
    }
    talk(conn, seat, aid, link, &mut input, &mut buffers)
}

// The same, where nothing has come yet.
fn talk<R: Wait, L: Link>(
    conn: &Connection<'_, R>,
    seat: &mut Seat,
    aid: &mut Aid,
    link: &mut L,
    input: &mut Input,
    buffers: &mut Buffers,
) -> SessionEnd
    requires seat { IsIdle conn.now.shared.now seat.old }
    requires aid { IsReady conn.now.shared.now aid.old.seat }
    requires conn { HoldsConnection (view seat.old) conn.now.number }
    requires said { HasSaid conn.now.number (view seat.old) }
    requires fresh { Expects conn.now.peer (OfIntake input.old) [] [] }
    requires taken { input.old.taken ≡ 0 }
    requires first { KnowsFirst conn.now.peer input.old.ear [] }
    requires room { 0 < length buffers.old.piece.items }
    ensures seat { IsIdle conn.now.shared.now seat.new }
    ensures ready { IsReady conn.now.shared.now aid.new.seat }
    ensures aids { Aids aid.old.seat aid.new.seat }
    ensures conn { HoldsConnection (view seat.new) conn.now.number }
    ensures converses { (g : Givens) → (view seat.old).givens ≡ Some g
        → Converses g conn.now.peer conn.now.number (view seat.old) (L.shown link.old)
        (view seat.new) (L.shown link.new) result }
    ensures read { (g : Givens) → (view seat.old).givens ≡ Some g
        → HasCause (L.shown link.old).read_faults (L.shown link.new).read_faults
        (result ≡ SessionEnd.ReadFault) }
    ensures written { HasCause (L.shown link.old).write_faults (L.shown link.new).write_faults
        (result ≡ SessionEnd.WriteFault) }
{
    for _ in conn.rt.forever() {
        match round(conn, seat, aid, link, input, buffers) {
            Flow::On => {}
            Flow::Ends(end) => {
                let read = mem::replace(input, Input::new(conn.alloc, conn.peer));
                return settle(conn, seat, link, read, end);
            }
            Flow::Broke(end) => return end,
        }
    }
    unreachable!()
}

// From now on replies for the connection ring the link's alarm.
fn hang<R: Wait, L: Link>(rt: &R, shared: &Shared, link: &L, conn: u32) -> Result<(), WantMemory> {
    let alarm = link.alarm()?;
    shared.hang(rt, conn, alarm)
}
