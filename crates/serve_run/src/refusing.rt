//! The numbers with which connections couldn't enter.
ghost use Rattle.std.specs.Prelude.{◌≡◌};
ghost use Rattle.serve_run.specs.Refusals as refusals;

use crate::received::Received;
use poa_base::{Session, SessionEnd};
use poa_history::Full;

/// The numbers with which a connection couldn't enter.
fn refusal_of(session: &Session) -> Option<Full>
    ensures { result ≡ refusals.refusal_of session.now }
{
    match (session.conn, session.end) {
        (None, SessionEnd::Limit { arrivals, bytes }) => Some(Full { arrivals, bytes }),
        _ => None,
    }
}

/// Whether there were fewer calls, or as many with fewer bytes.
fn is_earlier(one: &Full, other: &Full) -> bool
    ensures { result ≡ refusals.is_earlier one.now other.now }
{
    one.arrivals < other.arrivals || (one.arrivals == other.arrivals && one.bytes < other.bytes)
}

/// The less of two refusals.
pub fn earlier(one: Option<Full>, other: Option<Full>) -> Option<Full>
    ensures { result ≡ refusals.earlier one other }
{
    match (one, other) {
        (Some(one), Some(other)) => {
            if is_earlier(&other, &one) {
                Some(other)
            } else {
                Some(one)
            }
        }
        (None, other) => other,
        (one, None) => one,
    }
}

/// The less of the refusal so far, and that of a session.
pub fn noted(so_far: Option<Full>, received: &Received) -> Option<Full>
    ensures { result ≡ refusals.noted so_far received.now }
{
    match received {
        Received::Served(session) => earlier(so_far, refusal_of(session)),
        _ => so_far,
    }
}
