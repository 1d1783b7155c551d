//! A door is asked for its next link, and that is served.
ghost use Rattle.std.specs.Prelude.{◌≡◌, Some, List};
ghost use Rattle.poa_base.specs.declared.Entry.{Entry};
ghost use Rattle.seat_lock.specs.Seats.{view};
ghost use Rattle.seat_lock.specs.declared.view.View.{View};
ghost use Rattle.poa_history.specs.declared.givens.Givens.{Givens};
ghost use Rattle.outside.specs.Cause.{HasCause};
ghost use Rattle.poa_shared.specs.Seats.{IsIdle};
ghost use Rattle.poa_session.specs.Served.{Served};
ghost use Rattle.poa_shared.specs.Helping.{Aids, IsReady};
ghost use Rattle.serve_run.specs.Visits.{Visit};
ghost use Rattle.serve_run.specs.Doors.{AsReceived, Attending};

use crate::received::Received;
use crate::reception::Reception;
use outside::{Acceptor, Door, Link};
use poa_base::Session;
use poa_session::{serve_admin, serve_link};
use poa_shared::{Aid, Seat};
use session_laws::Peer;
use std::sync::Wait;

/// Serves one link, as its peer is. The aid helps with a client's.
fn serve<R: Wait, L: Link>(
    reception: &Reception<'_, R>,
    seat: &mut Seat,
    aid: &mut Aid,
    link: &mut L,
) -> Session
    requires seat { IsIdle reception.now.shared.now seat.old }
    requires aid { IsReady reception.now.shared.now aid.old.seat }
    ensures seat { IsIdle reception.now.shared.now seat.new }
    ensures ready { IsReady reception.now.shared.now aid.new.seat }
    ensures aids { Aids aid.old.seat aid.new.seat }
    ensures served { (g : Givens) → (view seat.old).givens ≡ Some g
        → Served g reception.now.peer (view seat.old) (view seat.new) (L.shown link.old)
        (L.shown link.new) result }
{
    let (rt, alloc, shared) = (reception.rt, reception.alloc, reception.shared);
    match reception.peer {
        Peer::Client => serve_link(rt, alloc, shared, seat, aid, link),
        Peer::Administrator => serve_admin(rt, alloc, shared, seat, link),
    }
}

/// Asks the door for its next link, serves that, and gives it back with its session.
pub fn receive<R: Wait, A: Acceptor>(
    reception: &Reception<'_, R>,
    seat: &mut Seat,
    aid: &mut Aid,
    door: &mut A,
) -> Received
    requires seat { IsIdle reception.now.shared.now seat.old }
    requires aid { IsReady reception.now.shared.now aid.old.seat }
    ensures seat { IsIdle reception.now.shared.now seat.new }
    ensures ready { IsReady reception.now.shared.now aid.new.seat }
    ensures aids { Aids aid.old.seat aid.new.seat }
    ensures received { (g : Givens) (first : View Givens Entry) (closed : A)
        (visits : List (Visit A.Link)) → first.givens ≡ Some g
        → Attending g reception.now.peer A.Link.shown A.standing A.faults A.ends first closed
        visits (view seat.old) door.old
        → AsReceived g reception.now.peer A.Link.shown A.standing A.faults A.ends first closed
        visits result (view seat.new) door.new }
    ensures nobody { HasCause (A.quiets door.old) (A.quiets door.new) (result ≡ Received.Nothing) }
{
    match door.next() {
        Door::Link(mut link) => {
            let session = serve(reception, seat, aid, &mut link);
            door.give_back(link, session);
            Received::Served(session)
        }
        Door::Quiet => Received::Nothing,
        Door::End => Received::End,
        Door::Failed => Received::Failed,
    }
}
