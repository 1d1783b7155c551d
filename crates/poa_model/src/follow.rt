//! Whether an entry may follow the ones before it, by the kind of the entry.
ghost use Rattle.std.specs.Prelude.{◌≡◌, ◌↔◌, ◌⊎◌, ◌+◌, ◌<◌, ◌≤◌, ◌^◌, reverse, option_copied, IfOk, IsTrue, Some, true, false};
ghost use Rattle.poa_base.specs.declared.limits.TheConstants.{CONNECTIONS};
ghost use Rattle.history_standing.specs.Arrivals as calls;
ghost use Rattle.poa_history.specs.Legal as legal;
ghost use Rattle.poa_history.specs.Replies as replies;
ghost use Rattle.history_standing.specs.Stages as begun;
ghost use Rattle.poa_history.specs.Entries.{is_turn as is_of_worker};

use crate::arriving::{arrived_bytes, had_shutdown, has_left, is_filled};
use crate::next_reply::slow_next_reply;
use crate::turns::slow_next;
use core_arrivals::is_shutdown;
use poa_base::limits::CONNECTIONS;
use poa_base::{Call, Entry, WantMemory};
use poa_history::Run;
use poa_history::calls::{arrivals, connections};
use poa_history::same::same_step;
use poa_history::workers::is_abandoned;

/// How many workers a run has.
const WORKERS: u32 = 16;

/// The size of the largest message, in bytes.
const LARGEST: u64 = 1_048_588;

/// How many bytes a run takes.
const BYTES: u64 = 1_073_741_824;

/// Whether the connection entered and hasn't left.
fn is_open(past: &[Entry], conn: u32) -> bool
    ensures { IsTrue result ↔ legal.IsOpen (reverse past.now) conn }
{
    (conn as u64) < connections(past) && !has_left(past, conn)
}

/// Whether a message or a line has that size.
fn is_size(size: u64) -> bool
    ensures { IsTrue result ↔ legal.IsSize size }
{
    1 <= size && size <= LARGEST
}

/// Whether so many bytes more are within the limit of the run.
fn fits(past: &[Entry], size: u64) -> bool
    ensures { IsTrue result ↔ (calls.arrived_bytes (reverse past.now) + size ≤ 2 ^ 30) }
{
    arrived_bytes(past).saturating_add(size) <= BYTES
}

/// Whether the run has room for one call more of this size.
fn has_room(limit: u64, past: &[Entry], size: u64) -> bool
    ensures { IsTrue result ↔ legal.HasRoom limit (reverse past.now) size }
{
    !is_filled(past) && (arrivals(past) < limit && fits(past, size))
}

/// Whether a call is the first `shutdown`.
fn is_first_shutdown(past: &[Entry], call: &Call) -> bool
    ensures { IsTrue result
        ↔ ((legal.is_shutdown call.now ≡ true) × (legal.had_shutdown (reverse past.now) ≡ false)) }
{
    is_shutdown(call) && !had_shutdown(past)
}

/// Whether a connection may enter under that number.
fn may_enter(past: &[Entry], conn: u32) -> bool
    ensures { IsTrue result
        ↔ ((conn ≡ calls.connections (reverse past.now)) × (conn < CONNECTIONS)) }
{
    conn as u64 == connections(past) && u64::from(conn) < CONNECTIONS
}

/// Whether a call of this size may arrive over the connection.
fn may_arrive(limit: u64, past: &[Entry], conn: u32, size: u64, call: &Call) -> bool
    ensures { IsTrue result ↔ legal.MayArrive limit (reverse past.now) conn size call.now }
{
    is_open(past, conn)
        && (is_size(size) && (is_first_shutdown(past, call) || has_room(limit, past, size)))
}

/// Whether a call of this size is one too many: the run has its calls, or would pass its bytes.
fn is_too_much(limit: u64, past: &[Entry], size: u64) -> bool
    ensures { IsTrue result
        ↔ ((limit ≤ calls.arrivals (reverse past.now))
        ⊎ (2 ^ 30 < calls.arrived_bytes (reverse past.now) + size)) }
{
    limit <= arrivals(past) || !fits(past, size)
}

/// Whether a call of this size may be refused for the limits of the run.
fn may_fill(limit: u64, past: &[Entry], conn: u32, size: u64) -> bool
    ensures { IsTrue result ↔ legal.MayFill limit (reverse past.now) conn size }
{
    is_open(past, conn) && (is_size(size) && (!is_filled(past) && is_too_much(limit, past, size)))
}

/// Whether the reply to that arrival is the one that the connection is given next.
fn may_collect(run: &Run<'_>, past: &[Entry], conn: u32, arrival: u64) -> Result<bool, WantMemory>
    ensures { IfOk result
        (λ may. IsTrue may ↔ (replies.next_reply run.now.config.now run.now.number
        (reverse past.now) conn
        ≡ Some arrival)) }
{
    match slow_next_reply(run, past, conn)? {
        Some(next) => Ok(next == arrival),
        None => Ok(false),
    }
}

/// Whether there is such a worker, and it hasn't given the run up.
fn is_at_work(past: &[Entry], worker: u32) -> bool
    ensures { IsTrue result
        ↔ ((worker < 16) × (begun.is_abandoned (reverse past.now) worker ≡ false)) }
{
    worker < WORKERS && !is_abandoned(past, worker)
}

/// Whether a worker's next step is that entry.
fn is_that(next: Option<&Entry>, entry: &Entry) -> bool
    requires { is_of_worker entry.now ≡ true }
    ensures { IsTrue result ↔ (option_copied next.entry ≡ Some entry.now) }
{
    match next {
        Some(step) => same_step(step, entry),
        None => false,
    }
}

/// Whether an entry is the next turn of its worker.
fn is_turn(run: &Run<'_>, past: &[Entry], worker: u32, entry: &Entry) -> Result<bool, WantMemory>
    requires { is_of_worker entry.now ≡ true }
    ensures { IfOk result
        (λ is. IsTrue is ↔ legal.IsTurn run.now.config.now run.now.number
        (reverse past.now) worker entry.now) }
{
    if !is_at_work(past, worker) {
        return Ok(false);
    }
    let next = slow_next(run, past, worker)?;
    Ok(is_that(next.as_ref(), entry))
}

/// Whether an entry may follow the ones before it, which stand oldest first, in a run of this number that
/// takes so many calls. `WantMemory`: no memory was left to compute it.
pub fn may_follow(
    run: &Run<'_>,
    limit: u64,
    past: &[Entry],
    entry: &Entry,
) -> Result<bool, WantMemory>
    ensures { IfOk result
        (λ may. IsTrue may ↔ legal.MayFollow run.now.config.now run.now.number limit
        (reverse past.now) entry.now) }
{
    match entry {
        Entry::Entered { conn } => Ok(may_enter(past, *conn)),
        Entry::Arrive { conn, size, call } => Ok(may_arrive(limit, past, *conn, *size, call)),
        Entry::Filled { conn, size } => Ok(may_fill(limit, past, *conn, *size)),
        Entry::Left { conn } => Ok(is_open(past, *conn)),
        Entry::Collect { conn, arrival } => { may_collect(run, past, *conn, *arrival) }
        Entry::Admit { worker, .. }
        | Entry::Tried { worker, .. }
        | Entry::Incarnated { worker, .. }
        | Entry::Run { worker }
        | Entry::Done { worker }
        | Entry::TakeOut { worker, .. }
        | Entry::Etherealized { worker, .. } => { is_turn(run, past, *worker, entry) }
        Entry::Abandon { worker } => Ok(is_at_work(past, *worker)),
    }
}
