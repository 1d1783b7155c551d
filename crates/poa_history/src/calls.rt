//! Calls in the order of their arriving.
ghost use Rattle.std.specs.Prelude.{◌≡◌, ◌≤◌, length, option_copied, reverse};
ghost use Rattle.history_standing.specs.Arrivals as calls;

use poa_base::{Bytes, Call, Entry};

/// How many calls arrived.
pub fn arrivals(history: &[Entry]) -> u64
    ensures count { result ≡ calls.arrivals (reverse history.now) }
    ensures few { result ≤ length history.now }
{
    let mut count = 0;
    for entry in history {
        if let Entry::Arrive { .. } = entry {
            count += 1;
        }
    }
    count
}

/// The call of an arrival.
pub fn call_of<'a>(history: &'a [Entry], arrival: u64) -> Option<&'a Call>
    ensures { option_copied result ≡ calls.call_of (reverse history.now) arrival }
{
    let mut found = None;
    let mut count = 0;
    for entry in history {
        if let Entry::Arrive { call, .. } = entry {
            if arrival == count {
                found = Some(call);
            }
            count += 1;
        }
    }
    found
}

/// The connection of an arrival.
pub fn conn_of(history: &[Entry], arrival: u64) -> Option<u32>
    ensures { result ≡ calls.conn_of (reverse history.now) arrival }
{
    let mut found = None;
    let mut count = 0;
    for entry in history {
        if let Entry::Arrive { conn, .. } = entry {
            if arrival == count {
                found = Some(*conn);
            }
            count += 1;
        }
    }
    found
}

/// How many connections entered.
pub fn connections(history: &[Entry]) -> u64
    ensures { result ≡ calls.connections (reverse history.now) }
{
    let mut count = 0;
    for entry in history {
        if let Entry::Entered { .. } = entry {
            count += 1;
        }
    }
    count
}

/// Whether a call is a request or a locate.
pub fn is_message(call: Option<&Call>) -> bool
    ensures { result ≡ calls.is_message (option_copied call.entry) }
{
    match call {
        Some(Call::Request { .. } | Call::Locate { .. }) => true,
        Some(Call::Line { .. }) | None => false,
    }
}

/// Whether a call is a locate.
pub fn is_locate(call: Option<&Call>) -> bool
    ensures { result ≡ calls.is_locate (option_copied call.entry) }
{
    match call {
        Some(Call::Locate { .. }) => true,
        Some(Call::Request { .. } | Call::Line { .. }) | None => false,
    }
}

/// The target of a call, where it gives a key.
pub fn target_of<'a>(call: Option<&'a Call>) -> Option<&'a Bytes>
    ensures { option_copied result ≡ calls.target_of (option_copied call.entry) }
{
    match call {
        Some(Call::Request { target, .. } | Call::Locate { target, .. }) => target.as_ref(),
        Some(Call::Line { .. }) | None => None,
    }
}
