//! What calls ask of a run: room.
ghost use Rattle.std.specs.Prelude.{◌≡◌, ◌↔◌, ◌⊎◌, ◌+◌, ◌<◌, ◌≤◌, ◌^◌, IsTrue, true, false};
ghost use Rattle.history_standing.specs.Arrivals as calls;
ghost use Rattle.poa_history.specs.Legal as legal;

use core_arrivals::is_shutdown;
use core_run::Run;
use poa_base::Call;

/// The size of the largest message, in bytes.
const LARGEST: u64 = 1_048_588;

/// How many bytes a run takes.
const BYTES: u64 = 1_073_741_824;

/// Whether the connection entered and hasn't left.
pub(crate) fn is_open(run: &Run, conn: u32) -> bool
    ensures { IsTrue result ↔ legal.IsOpen run.now.history conn }
{
    core_arrivals::is_open(&run.tables().tally, conn)
}

/// Whether a message or a line has that size.
fn is_size(size: u64) -> bool
    ensures { IsTrue result ↔ legal.IsSize size }
{
    1 <= size && size <= LARGEST
}

/// Whether a call was refused for the limits of the run.
fn is_filled(run: &Run) -> bool
    ensures { result ≡ legal.is_filled run.now.history }
{
    !run.filled().is_none()
}

/// Whether a `shutdown` arrived.
fn had_shutdown(run: &Run) -> bool
    ensures { result ≡ legal.had_shutdown run.now.history }
{
    run.tables().tally.ordered
}

/// Whether so many bytes more are within the limit of the run.
fn fits(run: &Run, size: u64) -> bool
    ensures { IsTrue result ↔ (calls.arrived_bytes run.now.history + size ≤ 2 ^ 30) }
{
    run.bytes().saturating_add(size) <= BYTES
}

/// Whether the run, which takes so many calls, has room for one more of this size.
fn has_room(run: &Run, limit: u64, size: u64) -> bool
    ensures { IsTrue result ↔ legal.HasRoom limit run.now.history size }
{
    !is_filled(run) && (run.arrivals() < limit && fits(run, size))
}

/// Whether a call is the first `shutdown`.
fn is_first_shutdown(run: &Run, call: &Call) -> bool
    ensures { IsTrue result ↔ ((legal.is_shutdown call.now ≡ true)
        × (legal.had_shutdown run.now.history ≡ false)) }
{
    is_shutdown(call) && !had_shutdown(run)
}

/// Whether a call of this size may arrive over the connection.
pub(crate) fn may_arrive(run: &Run, limit: u64, conn: u32, size: u64, call: &Call) -> bool
    ensures { IsTrue result ↔ legal.MayArrive limit run.now.history conn size call.now }
{
    is_open(run, conn)
        && (is_size(size) && (is_first_shutdown(run, call) || has_room(run, limit, size)))
}

/// Whether a call of this size is one too many: the run has its calls, or would pass its bytes.
fn is_too_much(run: &Run, limit: u64, size: u64) -> bool
    ensures { IsTrue result
        ↔ ((limit ≤ calls.arrivals run.now.history) ⊎ (2 ^ 30 < calls.arrived_bytes run.now.history + size)) }
{
    limit <= run.arrivals() || !fits(run, size)
}

/// Whether a call of this size may be refused for the limits of the run.
pub(crate) fn may_fill(run: &Run, limit: u64, conn: u32, size: u64) -> bool
    ensures { IsTrue result ↔ legal.MayFill limit run.now.history conn size }
{
    is_open(run, conn) && (is_size(size) && (!is_filled(run) && is_too_much(run, limit, size)))
}
