//! Links that are served.
ghost use Rattle.std.specs.Prelude.{◌≡◌, Some};
ghost use Rattle.seat_lock.specs.Seats.{view};
ghost use Rattle.poa_history.specs.declared.Givens.{Givens};
ghost use Rattle.session_laws.specs.declared.Peer.TheVariants as peers;
ghost use Rattle.poa_shared.specs.Seats.{IsIdle};
ghost use Rattle.poa_shared.specs.Helping.{Aids, IsReady};
ghost use Rattle.poa_session.specs.Served.{Served};
ghost use Rattle.poa_session.specs.Settling.{TurnsAway, refusal as refusal_of};

use crate::closing::close;
use crate::connection::Connection;
use crate::conversing::converse;
use giop_answer::kind::MINOR;
use outside::Link;
use poa_base::{Session, SessionEnd};
use poa_core::EnterFault;
use poa_shared::{Aid, Seat, Shared};
use session_laws::Peer;
use std::alloc::Global;
use std::sync::Wait;

/// Serves a client's link: enters a connection, lets the calls of the client's messages arrive on it, writes their
/// replies, and leaves it. `conn` is None where the connection can't enter; the end is then `Limit`, with the calls and
/// bytes of calls that stand, or `WantMemory`. How a session ends otherwise, with what was read and written then, is in
/// `session_laws`. The aid helps with the calls that arrive.
pub fn serve_link<R: Wait, L: Link>(
    rt: &R,
    alloc: Global,
    shared: &Shared,
    seat: &mut Seat,
    aid: &mut Aid,
    link: &mut L,
) -> Session
    requires seat { IsIdle shared.now seat.old }
    requires aid { IsReady shared.now aid.old.seat }
    ensures seat { IsIdle shared.now seat.new }
    ensures served { (g : Givens) → (view seat.old).givens ≡ Some g
        → Served g peers.Client (view seat.old) (view seat.new) (L.shown link.old)
        (L.shown link.new) result }
    ensures ready { IsReady shared.now aid.new.seat }
    ensures aids { Aids aid.old.seat aid.new.seat }
{
    serve(rt, alloc, shared, seat, aid, link, Peer::Client)
}

/// Serves an administrator's link: the same of its lines, and of the lines that answer them. No message closes it.
pub fn serve_admin<R: Wait, L: Link>(
    rt: &R,
    alloc: Global,
    shared: &Shared,
    seat: &mut Seat,
    link: &mut L,
) -> Session
    requires seat { IsIdle shared.now seat.old }
    ensures seat { IsIdle shared.now seat.new }
    ensures served { (g : Givens) → (view seat.old).givens ≡ Some g
        → Served g peers.Administrator (view seat.old) (view seat.new) (L.shown link.old)
        (L.shown link.new) result }
{
    let mut aid = Aid::none();
    serve(rt, alloc, shared, seat, &mut aid, link, Peer::Administrator)
}

// Serves the link of a peer.
fn serve<R: Wait, L: Link>(
    rt: &R,
    alloc: Global,
    shared: &Shared,
    seat: &mut Seat,
    aid: &mut Aid,
    link: &mut L,
    peer: Peer,
) -> Session
    requires seat { IsIdle shared.now seat.old }
    requires aid { IsReady shared.now aid.old.seat }
    ensures seat { IsIdle shared.now seat.new }
    ensures served { (g : Givens) → (view seat.old).givens ≡ Some g
        → Served g peer (view seat.old) (view seat.new) (L.shown link.old) (L.shown link.new)
        result }
    ensures ready { IsReady shared.now aid.new.seat }
    ensures aids { Aids aid.old.seat aid.new.seat }
{
    let conn = match shared.enter(rt, seat) {
        Ok(conn) => conn,
        Err(fault) => return turn_away(link, peer, fault),
    };
    let served = Connection {
        rt,
        alloc,
        shared,
        number: conn,
        peer,
    };
    let end = converse(&served, seat, aid, link);
    shared.take_down(rt, conn);
    shared.leave(rt, seat, conn);
    Session {
        conn: Some(conn),
        end,
    }
}

// Closes a link whose connection couldn't enter.
fn turn_away<L: Link>(link: &mut L, peer: Peer, fault: EnterFault) -> Session
    ensures { TurnsAway peer fault (L.shown link.old) (L.shown link.new) result }
{
    let end = refusal(fault);
    close(link, peer, MINOR, end);
    Session { conn: None, end }
}

// How a session ends that couldn't begin.
fn refusal(fault: EnterFault) -> SessionEnd
    ensures { result ≡ refusal_of fault }
{
    match fault {
        EnterFault::Limit {
            arrivals,
            bytes,
            ..
        } => SessionEnd::Limit { arrivals, bytes },
        EnterFault::WantMemory => SessionEnd::WantMemory,
    }
}
