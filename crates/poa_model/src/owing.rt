//! The replies that a connection is owed.
ghost use Rattle.std.specs.Prelude.{◌≡◌, ◌&&◌, not, reverse, IfOk};
ghost use Rattle.poa_history.specs.Replies as replies;
ghost use Rattle.history_standing.specs.Stages as begun;

use crate::deciding::decided;
use core_outboxes::asks;
use poa_base::{Entry, WantMemory};
use poa_history::Run;
use poa_history::calls::{arrivals, call_of, conn_of};

/// Whether a connection is that one.
fn is_of(conn: u32, of: Option<u32>) -> bool
    ensures { result ≡ begun.is_at conn of }
{
    match of {
        Some(other) => other == conn,
        None => false,
    }
}

/// Whether an arrival is of the connection and asks a reply.
pub fn is_asked(history: &[Entry], conn: u32, arrival: u64) -> bool
    ensures { result ≡ replies.is_asked (reverse history.now) conn arrival }
{
    match call_of(history, arrival) {
        Some(call) => is_of(conn, conn_of(history, arrival)) && asks(call),
        None => false,
    }
}

/// Whether an arrival is of the connection, asks a reply and isn't decided.
fn is_owed(run: &Run<'_>, history: &[Entry], conn: u32, arrival: u64) -> Result<bool, WantMemory>
    ensures { IfOk result
        (λ owed. owed ≡
        (replies.is_asked (reverse history.now) conn arrival
        && not (replies.decided run.now.config.now run.now.number (reverse history.now) arrival))) }
{
    if is_asked(history, conn, arrival) {
        Ok(!decided(run, history, arrival)?)
    } else {
        Ok(false)
    }
}

/// How many replies a connection is owed after a history that stands oldest first: its arrivals that ask
/// one and aren't decided.
pub fn slow_owed(run: &Run<'_>, history: &[Entry], conn: u32) -> Result<u64, WantMemory>
    ensures { IfOk result (λ owed. owed ≡ replies.owed run.now.config.now run.now.number
        (reverse history.now) conn) }
{
    let mut owed = 0;
    for arrival in 0..arrivals(history) {
        if is_owed(run, history, conn, arrival)? {
            owed += 1;
        }
    }
    Ok(owed)
}
