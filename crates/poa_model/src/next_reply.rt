//! Which reply a connection is given next.
ghost use Rattle.std.specs.Prelude.{◌≡◌, ◌<◌, ◌+◌, ◌&&◌, length, not, reverse, take, IfOk};
ghost use Rattle.history_standing.specs.Arrivals.{arrivals as arrivals_in};
ghost use Rattle.poa_history.specs.Replies as replies;
ghost use Rattle.history_standing.specs.Searches.{least};

use crate::deciding::decided;
use crate::owing::is_asked;
use poa_base::{Entry, WantMemory};
use poa_history::Run;
use poa_history::calls::arrivals;

/// Whether the reply to an arrival was collected.
fn is_collected(history: &[Entry], arrival: u64) -> bool
    ensures { result ≡ replies.is_collected (reverse history.now) arrival }
{
    let mut collected = false;
    for entry in history {
        if let Entry::Collect { arrival: of, .. } = entry {
            if *of == arrival {
                collected = true;
            }
        }
    }
    collected
}

/// Whether the arrival asks a reply, isn't collected, and was decided by the entry at a place.
fn is_newly_decided(
    run: &Run<'_>,
    history: &[Entry],
    conn: u32,
    place: usize,
    arrival: u64,
) -> Result<bool, WantMemory>
    requires { place < length history.now }
    ensures { IfOk result
        (λ newly. newly ≡ (replies.is_asked (reverse history.now) conn arrival
        && (not (replies.is_collected (reverse history.now) arrival)
        && (replies.decided run.now.config.now run.now.number
        (reverse (take (place + 1) history.now)) arrival && not
        (replies.decided run.now.config.now run.now.number
        (reverse (take place history.now)) arrival))))) }
{
    if !is_asked(history, conn, arrival) || is_collected(history, arrival) {
        return Ok(false);
    }
    if !decided(run, &history[..place + 1], arrival)? {
        return Ok(false);
    }
    Ok(!decided(run, &history[..place], arrival)?)
}

/// The least arrival that the entry at a place decided, asks a reply and isn't collected.
fn first_decided(
    run: &Run<'_>,
    history: &[Entry],
    conn: u32,
    place: usize,
) -> Result<Option<u64>, WantMemory>
    requires { place < length history.now }
    ensures { IfOk result
        (λ found. found ≡ least
        (λ r. replies.is_asked (reverse history.now) conn r
        && (not (replies.is_collected (reverse history.now) r)
        && (replies.decided run.now.config.now run.now.number
        (reverse (take (place + 1) history.now)) r && not
        (replies.decided run.now.config.now run.now.number (reverse (take place history.now)) r))))
        (arrivals_in (reverse (take place history.now)))) }
{
    let mut found = None;
    for arrival in 0..arrivals(&history[..place]) {
        if found.is_none() && is_newly_decided(run, history, conn, place, arrival)? {
            found = Some(arrival);
        }
    }
    Ok(found)
}

/// What was found, else the least arrival that the entry at a place decided.
fn or_decided(
    run: &Run<'_>,
    history: &[Entry],
    conn: u32,
    place: usize,
    found: Option<u64>,
) -> Result<Option<u64>, WantMemory>
    requires place { place < length history.now }
    requires found { found
        ≡ replies.next_within run.now.config.now run.now.number (reverse history.now) conn
        (reverse (take place history.now)) }
    ensures { IfOk result
        (λ next. next ≡ replies.next_within run.now.config.now run.now.number
        (reverse history.now) conn
        (reverse (take (place + 1) history.now))) }
{
    match found {
        Some(arrival) => Ok(Some(arrival)),
        None => first_decided(run, history, conn, place),
    }
}

/// The arrival whose reply a connection is given next after a history that stands oldest first; none
/// where it is given none.
pub fn slow_next_reply(
    run: &Run<'_>,
    history: &[Entry],
    conn: u32,
) -> Result<Option<u64>, WantMemory>
    ensures { IfOk result
        (λ next. next ≡ replies.next_reply run.now.config.now run.now.number
        (reverse history.now) conn) }
{
    let mut found = None;
    for i in 0..history.len() {
        found = or_decided(run, history, conn, i, found)?;
    }
    Ok(found)
}
