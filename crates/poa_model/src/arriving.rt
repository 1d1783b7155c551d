//! What was done so far about connections and the limits of the run.
ghost use Rattle.std.specs.Prelude.{◌≡◌, ◌-◌, ◌^◌, reverse, min};
ghost use Rattle.history_standing.specs.Arrivals as calls;
ghost use Rattle.poa_history.specs.Legal as legal;

use core_arrivals::is_shutdown;
use poa_base::Entry;

/// Whether the connection has left.
pub fn has_left(history: &[Entry], conn: u32) -> bool
    ensures { result ≡ legal.has_left (reverse history.now) conn }
{
    let mut left = false;
    for entry in history {
        if let Entry::Left { conn: of } = entry {
            if *of == conn {
                left = true;
            }
        }
    }
    left
}

/// Whether a call was refused for the limits of the run.
pub fn is_filled(history: &[Entry]) -> bool
    ensures { result ≡ legal.is_filled (reverse history.now) }
{
    let mut filled = false;
    for entry in history {
        if let Entry::Filled { .. } = entry {
            filled = true;
        }
    }
    filled
}

/// Whether a `shutdown` arrived.
pub fn had_shutdown(history: &[Entry]) -> bool
    ensures { result ≡ legal.had_shutdown (reverse history.now) }
{
    let mut had = false;
    for entry in history {
        if let Entry::Arrive { call, .. } = entry {
            if is_shutdown(call) {
                had = true;
            }
        }
    }
    had
}

/// How many bytes arrived; where the number passes 64 bits, the largest of them.
pub fn arrived_bytes(history: &[Entry]) -> u64
    ensures { result ≡ min (calls.arrived_bytes (reverse history.now)) (2 ^ 64 - 1) }
{
    let mut bytes: u64 = 0;
    for entry in history {
        if let Entry::Arrive { size, .. } = entry {
            bytes = bytes.saturating_add(*size);
        }
    }
    bytes
}
