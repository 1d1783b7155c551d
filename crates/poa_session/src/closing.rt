//! How a session is brought to its end.
ghost use Rattle.std.specs.Prelude.{◌≡◌, ◌≢◌, ◌≤◌, false, Some};
ghost use Rattle.seat_lock.specs.Seats.{view};
ghost use Rattle.outside.specs.Cause.{HasCause};
ghost use Rattle.poa_history.specs.declared.Givens.{Givens};
ghost use Rattle.session_laws.specs.Sessions.{closing, closing_message, is_settling as is_settling_end};
ghost use Rattle.poa_shared.specs.Seats.{IsIdle};
ghost use Rattle.poa_shared.specs.Seen.{HoldsConnection};
ghost use Rattle.poa_session.specs.Saying.{HasSaid};
ghost use Rattle.poa_session.specs.Settling.{Settles};
ghost use Rattle.outside.specs.Link.{Writes};

use crate::connection::Connection;
use crate::paying::pay;
use giop_answer::{write_closing, write_error};
use outside::{Link, write_all};
use poa_base::SessionEnd;
use poa_shared::Seat;
use session_laws::{Input, Peer};
use std::sync::Wait;

/// Brings a session to an end that it may have: pays what is owed and closes the connection, where the end asks it. What
/// isn't read of the input is given up. How the session ended then.
pub(crate) fn settle<R: Wait, L: Link>(
    conn: &Connection<'_, R>,
    seat: &mut Seat,
    link: &mut L,
    input: Input,
    end: SessionEnd,
) -> SessionEnd
    requires seat { IsIdle conn.now.shared.now seat.old }
    requires conn { HoldsConnection (view seat.old) conn.now.number }
    requires said { HasSaid conn.now.number (view seat.old) }
    requires end { end ≢ SessionEnd.WriteFault }
    ensures seat { IsIdle conn.now.shared.now seat.new }
    ensures conn { HoldsConnection (view seat.new) conn.now.number }
    ensures settles { (g : Givens) → (view seat.old).givens ≡ Some g
        → Settles g conn.now.peer conn.now.number (view seat.old) (L.shown link.old) input
        (view seat.new) (L.shown link.new) end result }
    ensures read { result ≡ SessionEnd.ReadFault → end ≡ SessionEnd.ReadFault }
    ensures failed { HasCause (L.shown link.old).write_faults (L.shown link.new).write_faults
        (result ≡ SessionEnd.WriteFault) }
{
    if !is_settling(end) {
        return end;
    }
    if let Err(broken) = pay(conn.rt, conn.alloc, conn.shared, seat, link, conn.number) {
        return broken;
    }
    let Ok(minor) = input.closing_minor() else {
        return SessionEnd::WantMemory;
    };
    if !close(link, conn.peer, minor, end) {
        return SessionEnd::WriteFault;
    }
    end
}

// Whether everything that is owed is paid before such an end.
fn is_settling(end: SessionEnd) -> bool
    ensures { result ≡ is_settling_end end }
{
    match end {
        SessionEnd::Ended
        | SessionEnd::Malformed { .. }
        | SessionEnd::Truncated { .. }
        | SessionEnd::Shut
        | SessionEnd::Limit { .. } => true,
        _ => false,
    }
}

/// Writes the message that closes a connection that ends so, where it has one, in this minor version. Whether the link took it.
pub(crate) fn close<L: Link>(link: &mut L, peer: Peer, minor: u8, end: SessionEnd) -> bool
    requires { minor ≤ 2 }
    ensures writes { Writes (closing peer minor end) (L.shown link.old) (L.shown link.new) result }
    ensures failed { HasCause (L.shown link.old).write_faults (L.shown link.new).write_faults
        (result ≡ false) }
{
    match peer {
        Peer::Client => close_client(link, minor, end),
        Peer::Administrator => true,
    }
}

// The same for a client.
fn close_client<L: Link>(link: &mut L, minor: u8, end: SessionEnd) -> bool
    requires { minor ≤ 2 }
    ensures writes { Writes (closing_message minor end) (L.shown link.old) (L.shown link.new)
        result }
    ensures failed { HasCause (L.shown link.old).write_faults (L.shown link.new).write_faults
        (result ≡ false) }
{
    match end {
        SessionEnd::Malformed { .. } => write_all(link, &write_error(minor)),
        SessionEnd::Shut | SessionEnd::Limit { .. } => write_all(link, &write_closing(minor)),
        _ => true,
    }
}
