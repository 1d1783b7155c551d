//! What each entry of a history adds to the tally.
ghost use Rattle.std.specs.Prelude.{◌≡◌, ◌∷◌, ◌+◌, ◌-◌, ◌^◌, ◌<◌, ◌==◌, length, min, true, if◌then◌else◌, option_copied, slice_set};
ghost use Rattle.poa_base.specs.declared.Entry.TheVariants.{Entered, Arrive, Filled, Left, Admit, Abandon};
ghost use Rattle.history_standing.specs.Arrivals as calls;
ghost use Rattle.poa_history.specs.Legal as legal;
ghost use Rattle.poa_history.specs.Leaving as leaving;
ghost use Rattle.core_arrivals.specs.Tallies as tallies;
ghost use Rattle.core_arrivals.specs.Tallies.{HasRoomFor, HasRoomForOne, TallyTakes, TallyTakesAfter};

use crate::tally::Tally;
use poa_base::{Call, Command, Entry, Verdict};
use poa_history::Full;

/// Whether a call is the administrator's `shutdown`.
pub fn is_shutdown(call: &Call) -> bool
    ensures { result ≡ legal.is_shutdown call.now }
{
    match call {
        Call::Line {
            command: Command::Shutdown,
            ..
        } => true,
        _ => false,
    }
}

/// Whether there is a call, and it is a `shutdown`.
fn is_shut_by(call: Option<&Call>) -> bool
    ensures { result ≡ leaving.is_shut_by (option_copied call.entry) }
{
    match call {
        Some(call) => is_shutdown(call),
        None => false,
    }
}

/// One connection more is there; the first isn't counted.
fn with_one(conn: u32, staying: u64) -> u64
    ensures { result ≡ (if conn == 0 then staying else min (staying + 1) (2 ^ 64 - 1)) }
{
    if conn == 0 {
        staying
    } else {
        staying.saturating_add(1)
    }
}

/// One connection less is there.
fn without_one(conn: u32, staying: u64) -> u64
    ensures { result ≡ (if conn == 0 then staying else staying - 1) }
{
    if conn == 0 {
        staying
    } else {
        staying.saturating_sub(1)
    }
}

/// Notes that a connection has left.
fn mark(conn: u32, left: &mut Vec<bool>)
    ensures { conn < length left.old.items → left.new.items ≡ slice_set left.old.items conn true }
{
    if (conn as usize) < left.len() {
        left[conn as usize] = true;
    }
}

/// A connection enters.
fn enter(conn: u32, tally: &mut Tally)
    requires { HasRoomForOne tally.old }
    ensures { tallies.TallyEnters conn tally.old tally.new }
{
    tally.staying = with_one(conn, tally.staying);
    tally.left.push_reserved(false);
}

/// A call arrives.
fn arrive(conn: u32, size: u64, call: &Call, tally: &mut Tally)
    ensures { TallyTakesAfter (λ past. tallies.AreFew (Arrive conn size call.now ∷ past))
        (Arrive conn size call.now) tally.old tally.new }
{
    tally.arrivals = tally.arrivals.saturating_add(1);
    tally.bytes = tally.bytes.saturating_add(size);
    tally.ordered = is_shutdown(call) || tally.ordered;
}

/// A call is refused, since the run takes no more.
fn fill(conn: u32, size: u64, tally: &mut Tally)
    ensures { TallyTakes (Filled conn size) tally.old tally.new }
{
    tally.filled = Some(Full {
        arrivals: tally.arrivals,
        bytes: tally.bytes,
    });
}

/// A connection leaves.
fn leave(conn: u32, tally: &mut Tally)
    ensures { TallyTakesAfter (λ past. legal.IsOpen past conn) (Left conn) tally.old tally.new }
{
    tally.staying = without_one(conn, tally.staying);
    mark(conn, &mut tally.left);
}

/// A call is admitted, whatever it is answered.
fn admit(worker: u32, arrival: u64, verdict: &Verdict, call: Option<&Call>, tally: &mut Tally)
    ensures { TallyTakesAfter (λ past. option_copied call.entry ≡ calls.call_of past arrival)
        (Admit worker arrival verdict.now) tally.old tally.new }
{
    tally.shut = is_shut_by(call) || tally.shut;
}

/// A worker gives the run up; the first one is remembered.
fn give_up(worker: u32, tally: &mut Tally)
    ensures { TallyTakes (Abandon worker) tally.old tally.new }
{
    tally.given_up = tally.given_up.or(Some(worker));
}

/// Takes in an entry, with the call of the arrival that it admits. Takes no memory.
pub fn advance(entry: &Entry, call: Option<&Call>, tally: &mut Tally)
    requires { HasRoomFor entry.now tally.old }
    ensures { tallies.TallyFollows entry.now (option_copied call.entry) tally.old tally.new }
{
    match entry {
        Entry::Entered { conn } => enter(*conn, tally),
        Entry::Arrive { conn, size, call } => arrive(*conn, *size, call, tally),
        Entry::Filled { conn, size } => fill(*conn, *size, tally),
        Entry::Left { conn } => leave(*conn, tally),
        Entry::Admit {
            worker,
            arrival,
            verdict,
        } => admit(*worker, *arrival, verdict, call, tally),
        Entry::Abandon { worker } => give_up(*worker, tally),
        _ => {}
    }
}
