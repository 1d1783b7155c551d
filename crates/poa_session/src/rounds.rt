//! One round of a session.
ghost use Rattle.std.specs.Prelude.{◌≡◌, ◌≢◌, ◌<◌, length, Some};
ghost use Rattle.seat_lock.specs.Seats.{view};
ghost use Rattle.outside.specs.Cause.{HasCause};
ghost use Rattle.poa_history.specs.declared.Givens.{Givens};
ghost use Rattle.poa_base.specs.declared.SessionEnd.TheVariants as end;
ghost use Rattle.session_laws.specs.declared.Peer.{Peer};
ghost use Rattle.poa_shared.specs.Seats.{IsIdle};
ghost use Rattle.poa_shared.specs.Seen.{HoldsConnection};
ghost use Rattle.poa_shared.specs.Helping.{Aids, IsReady};
ghost use Rattle.poa_session.specs.Saying.{HasSaid};
ghost use Rattle.poa_session.specs.Rounding.{Rounds};

use crate::buffers::Buffers;
use crate::connection::Connection;
use crate::exchanging::exchange;
use crate::flow::Flow;
use crate::taking_in::take_in;
use outside::{Link, write_all};
use poa_base::SessionEnd;
use poa_shared::{Aid, Seat};
use session_laws::Input;
use std::sync::Wait;

/// Lets arrive what was read, with the aid's help, writes the replies that are decided, and then reads more: a read waits, where nothing is
/// there, for input and for replies.
pub(crate) fn round<R: Wait, L: Link>(
    conn: &Connection<'_, R>,
    seat: &mut Seat,
    aid: &mut Aid,
    link: &mut L,
    input: &mut Input,
    buffers: &mut Buffers,
) -> Flow
    requires seat { IsIdle conn.now.shared.now seat.old }
    requires aid { IsReady conn.now.shared.now aid.old.seat }
    requires conn { HoldsConnection (view seat.old) conn.now.number }
    requires said { HasSaid conn.now.number (view seat.old) }
    requires room { 0 < length buffers.old.piece.items }
    ensures seat { IsIdle conn.now.shared.now seat.new }
    ensures ready { IsReady conn.now.shared.now aid.new.seat }
    ensures aids { Aids aid.old.seat aid.new.seat }
    ensures conn { HoldsConnection (view seat.new) conn.now.number }
    ensures room { length buffers.new.piece.items ≡ length buffers.old.piece.items }
    ensures rounds { (g : Givens) → (view seat.old).givens ≡ Some g → (peer : Peer)
        → Rounds g peer conn.now.number (view seat.old) (L.shown link.old) input.old (view seat.new)
        (L.shown link.new) input.new result }
    ensures read { (g : Givens) → (view seat.old).givens ≡ Some g
        → HasCause (L.shown link.old).read_faults (L.shown link.new).read_faults
        (result ≡ Flow.Ends end.ReadFault) }
    ensures written { HasCause (L.shown link.old).write_faults (L.shown link.new).write_faults
        (result ≡ Flow.Broke end.WriteFault) }
    ensures ends { (result ≢ Flow.Ends end.WriteFault) × (result ≢ Flow.Broke end.ReadFault) }
{
    // Before it looks: what is decided or shut from here on ends the read that waits.
    conn.shared.attend(conn.number);
    let replies = &mut buffers.replies;
    let exchanged = match exchange(conn, seat, aid, input, replies) {
        Ok(exchanged) => exchanged,
        Err(flow) => return flow,
    };
    if !write_all(link, &buffers.replies.bytes) {
        return Flow::Broke(SessionEnd::WriteFault);
    }
    match take_in(link, input, &mut buffers.piece, exchanged) {
        Some(end) => Flow::Ends(end),
        None => Flow::On,
    }
}
