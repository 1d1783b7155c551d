//! What a round does on the shared core, under one hold of the front, and what it does before and behind it.
ghost use Rattle.std.specs.Prelude.{◌≡◌, ◌≢◌, ℕ, List, [], Some, Err, OnOk};
ghost use Rattle.seat_lock.specs.Seats.{view};
ghost use Rattle.poa_history.specs.declared.Givens.{Givens};
ghost use Rattle.poa_base.specs.declared.SessionEnd.TheVariants as end;
ghost use Rattle.session_laws.specs.declared.Peer.{Peer};
ghost use Rattle.session_laws.specs.HearingPieces.{Intake, KnowsFirst};
ghost use Rattle.poa_shared.specs.Seats.{IsIdle};
ghost use Rattle.poa_shared.specs.Seen.{HoldsConnection};
ghost use Rattle.poa_shared.specs.Helping.{Aids, IsReady};
ghost use Rattle.poa_session.specs.Saying.{HasSaid};
ghost use Rattle.poa_session.specs.Giving.{AreGiven};
ghost use Rattle.poa_session.specs.Listening.{Comes, IsNextTold};
ghost use Rattle.poa_session.specs.Exchanging.{Exchanges, Holds};

use crate::collecting::gather_within;
use crate::connection::Connection;
use crate::exchanged::Exchanged;
use crate::flow::Flow;
use crate::listening::listen_within;
use crate::paying::look_within;
use crate::replies::Replies;
use poa_base::{SessionEnd, WantMemory};
use poa_core::Collected;
use poa_shared::{Aid, Front, News, Seat};
use session_laws::{Input, Told};
use std::sync::Wait;

/// Lets arrive what was read, has the aid make the turns for it, and spells the replies that are decided, in place of those
/// of the round before. How many bytes are left over of what was read, and how many calls are owed a reply; or how the session
/// goes on where it isn't by the next round.
///
/// Others wait for the front meanwhile. So the call that comes first, which most often is the only one, is read before it is
/// held, and the replies are spelled behind that.
pub(crate) fn exchange<R: Wait>(
    conn: &Connection<'_, R>,
    seat: &mut Seat,
    aid: &mut Aid,
    input: &mut Input,
    replies: &mut Replies,
) -> Result<Exchanged, Flow>
    requires seat { IsIdle conn.now.shared.now seat.old }
    requires aid { IsReady conn.now.shared.now aid.old.seat }
    requires conn { HoldsConnection (view seat.old) conn.now.number }
    requires said { HasSaid conn.now.number (view seat.old) }
    ensures seat { IsIdle conn.now.shared.now seat.new }
    ensures ready { IsReady conn.now.shared.now aid.new.seat }
    ensures aids { Aids aid.old.seat aid.new.seat }
    ensures conn { HoldsConnection (view seat.new) conn.now.number }
    ensures first { (peer : Peer) (text : List ℕ) → KnowsFirst peer input.old.ear text
        → KnowsFirst peer input.new.ear text }
    ensures exchanges { (g : Givens) → (view seat.old).givens ≡ Some g → (peer : Peer)
        → Exchanges g peer conn.now.number (view seat.old) input.old (view seat.new) input.new
        replies.new.bytes.items result }
    ensures unfaulted { (result ≢ Err (Flow.Ends end.WriteFault))
        × (result ≢ Err (Flow.Ends end.ReadFault)) }
    ensures broken { (result ≢ Err (Flow.Broke end.WriteFault))
        × (result ≢ Err (Flow.Broke end.ReadFault)) }
{
    replies.clear();
    let first = input.next(conn.alloc);
    let given = &mut replies.given;
    let exchanged = match hold(conn, seat, aid, input, first, given) {
        Ok(exchanged) => exchanged,
        Err(flow) => return Err(flow),
    };
    match replies.spell(conn.alloc) {
        Ok(()) => Ok(exchanged),
        Err(WantMemory) => Err(Flow::Broke(SessionEnd::WantMemory)),
    }
}

// What a round does under one hold of the front, where the first of what was read is this; then it wakes those whom that
// concerns. The replies are kept behind the others.
fn hold<R: Wait>(
    conn: &Connection<'_, R>,
    seat: &mut Seat,
    aid: &mut Aid,
    input: &mut Input,
    first: Result<Told, WantMemory>,
    given: &mut Vec<Collected>,
) -> Result<Exchanged, Flow>
    requires seat { IsIdle conn.now.shared.now seat.old }
    requires aid { IsReady conn.now.shared.now aid.old.seat }
    requires conn { HoldsConnection (view seat.old) conn.now.number }
    requires said { HasSaid conn.now.number (view seat.old) }
    requires next { Comes first input.old }
    ensures seat { IsIdle conn.now.shared.now seat.new }
    ensures ready { IsReady conn.now.shared.now aid.new.seat }
    ensures aids { Aids aid.old.seat aid.new.seat }
    ensures conn { HoldsConnection (view seat.new) conn.now.number }
    ensures first { (peer : Peer) (text : List ℕ) → KnowsFirst peer input.old.ear text
        → KnowsFirst peer input.new.ear text }
    ensures given { AreGiven given.old.items → OnOk result (AreGiven given.new.items) }
    ensures holds { (g : Givens) → (view seat.old).givens ≡ Some g → (peer : Peer) (i : Intake)
        → IsNextTold i first input.old
        → Holds g peer conn.now.number (view seat.old) i (view seat.new) input.new given.old.items
        given.new.items result }
    ensures unfaulted { (result ≢ Err (Flow.Ends end.WriteFault))
        × (result ≢ Err (Flow.Ends end.ReadFault)) }
    ensures broken { (result ≢ Err (Flow.Broke end.WriteFault))
        × (result ≢ Err (Flow.Broke end.ReadFault)) }
{
    let mut news = News::besides(conn.number);
    let front = conn.shared.front(conn.rt);
    let result = hold_within(conn, &front, seat, aid, input, first, given, &mut news);
    drop(front);
    conn.shared.tell(conn.rt, seat, &news);
    result
}

// The same. The front is held.
fn hold_within<R: Wait>(
    conn: &Connection<'_, R>,
    front: &Front<'_>,
    seat: &mut Seat,
    aid: &mut Aid,
    input: &mut Input,
    first: Result<Told, WantMemory>,
    given: &mut Vec<Collected>,
    news: &mut News,
) -> Result<Exchanged, Flow>
    requires seat { IsIdle conn.now.shared.now seat.old }
    requires aid { IsReady conn.now.shared.now aid.old.seat }
    requires conn { HoldsConnection (view seat.old) conn.now.number }
    requires said { HasSaid conn.now.number (view seat.old) }
    requires next { Comes first input.old }
    ensures seat { IsIdle conn.now.shared.now seat.new }
    ensures ready { IsReady conn.now.shared.now aid.new.seat }
    ensures aids { Aids aid.old.seat aid.new.seat }
    ensures conn { HoldsConnection (view seat.new) conn.now.number }
    ensures first { (peer : Peer) (text : List ℕ) → KnowsFirst peer input.old.ear text
        → KnowsFirst peer input.new.ear text }
    ensures given { AreGiven given.old.items → OnOk result (AreGiven given.new.items) }
    ensures holds { (g : Givens) → (view seat.old).givens ≡ Some g → (peer : Peer) (i : Intake)
        → IsNextTold i first input.old
        → Holds g peer conn.now.number (view seat.old) i (view seat.new) input.new given.old.items
        given.new.items result }
    ensures unfaulted { (result ≢ Err (Flow.Ends end.WriteFault))
        × (result ≢ Err (Flow.Ends end.ReadFault)) }
    ensures broken { (result ≢ Err (Flow.Broke end.WriteFault))
        × (result ≢ Err (Flow.Broke end.ReadFault)) }
{
    if let Some(end) = look_within(conn.rt, conn.shared, front, seat) {
        return Err(Flow::Ends(end));
    }
    let have = match listen_within(conn, front, seat, input, first, news) {
        Ok(have) => have,
        Err(end) => return Err(Flow::Ends(end)),
    };
    aid.help(conn.rt, conn.shared, front, news);
    match gather_within(conn.rt, conn.shared, front, seat, conn.number, given) {
        Ok(owed) => Ok(Exchanged { have, owed }),
        Err(WantMemory) => Err(Flow::Broke(SessionEnd::WantMemory)),
    }
}
