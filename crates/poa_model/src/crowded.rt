//! How many calls wait.
ghost use Rattle.std.specs.Prelude.{◌≡◌, ◌&&◌, reverse};
ghost use Rattle.history_standing.specs.Arrivals as calls;
ghost use Rattle.history_standing.specs.Stages as begun;
ghost use Rattle.history_standing.specs.Situations as situations;

use poa_base::Entry;
use poa_base::limits::UNADMITTED;
use poa_history::calls::{arrivals, call_of, is_message};
use poa_history::workers::admitted;

/// Whether an arrival is a request or locate that stands unadmitted.
fn is_waiting(history: &[Entry], arrival: u64) -> bool
    ensures { result ≡ begun.is_unadmitted (reverse history.now) arrival
        && calls.is_message (calls.call_of (reverse history.now) arrival) }
{
    admitted(history, arrival).is_none() && is_message(call_of(history, arrival))
}

/// How many requests and locates stand unadmitted.
fn waiting_messages(history: &[Entry]) -> u64
    ensures { result ≡ situations.waiting_messages (reverse history.now) }
{
    let mut count = 0;
    for arrival in 0..arrivals(history) {
        if is_waiting(history, arrival) {
            count += 1;
        }
    }
    count
}

/// Whether too many stood unadmitted when it arrived.
pub fn is_crowded(history: &[Entry], arrival: u64) -> bool
    ensures { result ≡ situations.is_crowded (reverse history.now) arrival }
{
    let mut crowded = false;
    for (i, entry) in history.iter().enumerate() {
        if let Entry::Arrive { .. } = entry {
            if arrival == arrivals(&history[..i]) {
                crowded = waiting_messages(&history[..i]) >= UNADMITTED;
            }
        }
    }
    crowded
}
