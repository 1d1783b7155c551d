//! What a tally answers, without memory.
ghost use Rattle.std.specs.Prelude.{◌≡◌, ◌↔◌, ◌+◌, ◌^◌, ◌&&◌, ◌==◌, IsTrue, length, nat_le, nat_lt, not, None, option_map};
ghost use Rattle.history_standing.specs.Arrivals as calls;
ghost use Rattle.poa_history.specs.Legal as legal;
ghost use Rattle.poa_history.specs.Limits as limits;
ghost use Rattle.poa_history.specs.Leaving as leaving;
ghost use Rattle.poa_history.specs.Phases as phases;
ghost use Rattle.core_arrivals.specs.Tallies.{TallyTells, flag_of};

use crate::moves::is_shutdown;
use crate::tally::Tally;
use poa_base::Call;
use poa_history::{Full, Phase};

/// How many bytes a run takes.
const BYTES: u64 = 1_073_741_824;

/// How many connections entered.
pub fn connections(tally: &Tally) -> u64
    ensures { TallyTells tally.now (λ h. result ≡ calls.connections h) }
{
    tally.left.len() as u64
}

/// Whether a connection is known, and hasn't left.
fn is_unmarked(conn: u32, left: &[bool]) -> bool
    ensures { result ≡ (nat_lt conn (length left.now) && not (flag_of left.now conn)) }
{
    (conn as usize) < left.len() && !left[conn as usize]
}

/// Whether a connection entered and hasn't left.
pub fn is_open(tally: &Tally, conn: u32) -> bool
    ensures value { TallyTells tally.now
        (λ h. result ≡ (nat_lt conn (calls.connections h) && not (legal.has_left h conn))) }
    ensures open_ { TallyTells tally.now (λ h. IsTrue result ↔ legal.IsOpen h conn) }
{
    is_unmarked(conn, &tally.left)
}

/// Whether so many bytes more are within the limit of a run.
fn fits(bytes: u64, size: u64) -> bool
    ensures { result ≡ nat_le (bytes + size) (2 ^ 30) }
{
    bytes.saturating_add(size) <= BYTES
}

/// Whether the run was never filled.
fn is_unfilled(tally: &Tally) -> bool
    ensures { TallyTells tally.now (λ h. result ≡ not (legal.is_filled h)) }
{
    tally.filled.is_none()
}

/// Whether fewer calls arrived.
fn has_few(limit: u64, tally: &Tally) -> bool
    ensures { TallyTells tally.now (λ h. result ≡ nat_lt (calls.arrivals h) limit) }
{
    tally.arrivals < limit
}

/// Whether a run that takes so many arrivals has room for a call of this size.
fn has_room(limit: u64, size: u64, tally: &Tally) -> bool
    ensures { TallyTells tally.now (λ h. result ≡ limits.has_room limit h size) }
{
    is_unfilled(tally) && (has_few(limit, tally) && fits(tally.bytes, size))
}

/// Whether a call of this size is taken by a run that takes so many arrivals: there is room for it, or it is
/// the first `shutdown`.
pub fn is_taken(limit: u64, call: &Call, size: u64, tally: &Tally) -> bool
    ensures { TallyTells tally.now (λ h. result ≡ limits.is_taken limit h size call.now) }
{
    (is_shutdown(call) && !tally.ordered) || has_room(limit, size, tally)
}

/// Whether nothing more can come, where so many calls are unadmitted: a `shutdown` was admitted, every
/// connection but the first has left, and every call is admitted.
pub fn is_run_over(tally: &Tally, unadmitted: u64) -> bool
    ensures { TallyTells tally.now (λ h. result ≡ (leaving.is_shut h
        && (leaving.are_gone h (calls.connections h) && (unadmitted == 0)))) }
{
    tally.shut && tally.staying == 0 && unadmitted == 0
}

/// How many calls, and bytes of calls, stood when a run took no more, if it came to that.
pub fn filled(tally: &Tally) -> Option<Full>
    ensures { TallyTells tally.now
        (λ h. option_map (λ f. (f.arrivals, f.bytes)) result ≡ limits.filled_at h) }
{
    tally.filled
}

/// How far a run has come that no worker gave up.
fn phase_without(tally: &Tally) -> Phase
    ensures { TallyTells tally.now
        (λ h. result ≡ phases.phase_by None (leaving.is_shut h) (legal.is_filled h)) }
{
    if tally.shut {
        return Phase::Shut;
    }
    if is_unfilled(tally) {
        Phase::Running
    } else {
        Phase::Full
    }
}

/// How far the run has come.
pub fn phase_of(tally: &Tally) -> Phase
    ensures { TallyTells tally.now (λ h. result ≡ phases.phase_of h) }
{
    match tally.given_up {
        Some(worker) => Phase::Abandoned { worker },
        None => phase_without(tally),
    }
}
