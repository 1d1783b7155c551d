//! Calls that arrive.
ghost use Rattle.std.specs.Prelude.{◌≡◌, ◌≢◌, ℕ, List, Some, Err};
ghost use Rattle.seat_lock.specs.Seats.{view};
ghost use Rattle.poa_history.specs.declared.Givens.{Givens};
ghost use Rattle.session_laws.specs.declared.Peer.{Peer};
ghost use Rattle.session_laws.specs.HearingPieces.{Intake, KnowsFirst};
ghost use Rattle.poa_shared.specs.Seats.{IsIdle};
ghost use Rattle.poa_shared.specs.Seen.{HoldsConnection};
ghost use Rattle.poa_session.specs.Listening.{AsArrived, Comes, Hears, IsNextTold, IsSized, Listens};
ghost use Rattle.poa_history.specs.Legal.{IsSize};

use crate::connection::Connection;
use crate::progress::Progress;
use poa_base::{Call, SessionEnd, WantMemory};
use poa_core::ArriveFault;
use poa_shared::{Front, News, Seat};
use session_laws::{Input, Told};
use std::sync::Wait;

/// Lets each call arrive that stands whole in the input, of which the first was read before, and notes that calls came. How
/// many bytes are left over behind them, or how the session ends. The front is held.
pub(crate) fn listen_within<R: Wait>(
    conn: &Connection<'_, R>,
    front: &Front<'_>,
    seat: &mut Seat,
    input: &mut Input,
    first: Result<Told, WantMemory>,
    news: &mut News,
) -> Result<u64, SessionEnd>
    requires seat { IsIdle conn.now.shared.now seat.old }
    requires conn { HoldsConnection (view seat.old) conn.now.number }
    requires next { Comes first input.old }
    ensures seat { IsIdle conn.now.shared.now seat.new }
    ensures conn { HoldsConnection (view seat.new) conn.now.number }
    ensures first { (peer : Peer) (text : List ℕ) → KnowsFirst peer input.old.ear text
        → KnowsFirst peer input.new.ear text }
    ensures listens { (g : Givens) → (view seat.old).givens ≡ Some g → (peer : Peer) (i : Intake)
        → IsNextTold i first input.old
        → Listens g peer conn.now.number (view seat.old) i (view seat.new) input.new result }
    ensures unwritten { (result ≢ Err SessionEnd.WriteFault) × (result ≢ Err SessionEnd.ReadFault) }
{
    let mut progress = take(conn, front, seat, first, news);
    for _ in conn.rt.forever() {
        match progress {
            Progress::On => {}
            Progress::Waits { have } => return Ok(have),
            Progress::Ends(end) => return Err(end),
        }
        progress = hear(conn, front, seat, input, news);
    }
    unreachable!()
}

// Reads what stands next, and lets it arrive where it is a call.
fn hear<R: Wait>(
    conn: &Connection<'_, R>,
    front: &Front<'_>,
    seat: &mut Seat,
    input: &mut Input,
    news: &mut News,
) -> Progress
    requires seat { IsIdle conn.now.shared.now seat.old }
    requires conn { HoldsConnection (view seat.old) conn.now.number }
    ensures seat { IsIdle conn.now.shared.now seat.new }
    ensures conn { HoldsConnection (view seat.new) conn.now.number }
    ensures first { (peer : Peer) (text : List ℕ) → KnowsFirst peer input.old.ear text
        → KnowsFirst peer input.new.ear text }
    ensures hears { (g : Givens) → (view seat.old).givens ≡ Some g → (peer : Peer)
        → Hears g peer conn.now.number (view seat.old) input.old (view seat.new) input.new result }
    ensures unwritten { (result ≢ Progress.Ends SessionEnd.WriteFault)
        × (result ≢ Progress.Ends SessionEnd.ReadFault) }
{
    let told = input.next(conn.alloc);
    take(conn, front, seat, told, news)
}

// Lets what was read arrive where it is a call.
fn take<R: Wait>(
    conn: &Connection<'_, R>,
    front: &Front<'_>,
    seat: &mut Seat,
    told: Result<Told, WantMemory>,
    news: &mut News,
) -> Progress
    requires seat { IsIdle conn.now.shared.now seat.old }
    requires conn { HoldsConnection (view seat.old) conn.now.number }
    requires size { IsSized told }
    ensures seat { IsIdle conn.now.shared.now seat.new }
    ensures conn { HoldsConnection (view seat.new) conn.now.number }
    ensures hears { (g : Givens) → (view seat.old).givens ≡ Some g → (peer : Peer) (i j : Intake)
        → IsNextTold i told j
        → Hears g peer conn.now.number (view seat.old) i (view seat.new) j result }
    ensures unwritten { (result ≢ Progress.Ends SessionEnd.WriteFault)
        × (result ≢ Progress.Ends SessionEnd.ReadFault) }
{
    let Ok(told) = told else {
        return Progress::Ends(SessionEnd::WantMemory);
    };
    match told {
        Told::Call { call, size } => {
            news.note_call();
            arrive(conn, front, seat, call, size)
        }
        Told::Nothing => Progress::On,
        Told::More { have } => Progress::Waits { have },
        Told::Closed => Progress::Ends(SessionEnd::Ended),
        Told::Bad { at } => Progress::Ends(SessionEnd::Malformed { at }),
    }
}

// A call of so many bytes arrives, or ends the session.
fn arrive<R: Wait>(
    conn: &Connection<'_, R>,
    front: &Front<'_>,
    seat: &mut Seat,
    call: Call,
    size: u64,
) -> Progress
    requires seat { IsIdle conn.now.shared.now seat.old }
    requires conn { HoldsConnection (view seat.old) conn.now.number }
    requires size { IsSize size }
    ensures seat { IsIdle conn.now.shared.now seat.new }
    ensures conn { HoldsConnection (view seat.new) conn.now.number }
    ensures arrives { (g : Givens) → (view seat.old).givens ≡ Some g
        → AsArrived g conn.now.number call size (view seat.old) (view seat.new) result }
    ensures unwritten { (result ≢ Progress.Ends SessionEnd.WriteFault)
        × (result ≢ Progress.Ends SessionEnd.ReadFault) }
{
    match conn
        .shared
        .arrive_within(conn.rt, front, seat, conn.number, call, size)
    {
        Ok(_) => Progress::On,
        Err(ArriveFault::Limit { arrivals, bytes }) => {
            Progress::Ends(SessionEnd::Limit { arrivals, bytes })
        }
        Err(ArriveFault::WantMemory) => Progress::Ends(SessionEnd::WantMemory),
    }
}
