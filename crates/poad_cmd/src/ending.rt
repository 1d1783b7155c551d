//! How a run ended.
ghost use Rattle.std.specs.Prelude.{◌≡◌};
ghost use Rattle.poad_cmd.specs.Ending as spec;

use outside::Put;
use poa_base::WantMemory;
use poa_history::Full;
use poad_files::Status;
use serve_run::{Outcome, Want};

/// The status of a run by how it came off, what came of putting its files, and when it took no more calls. Of
/// several the first of want of memory, of a thread, a fault of the files, of a door, and the limit is told.
pub(crate) fn status_of(
    outcome: &Outcome,
    put: &Result<Put, WantMemory>,
    filled: Option<Full>,
) -> Status
    ensures { result ≡ spec.status_of outcome.now put.now filled }
{
    if wants_memory(outcome) || put.is_err() {
        return Status::WantMemory;
    }
    if outcome.short.is_some() {
        return Status::NoThread;
    }
    if is_unput(put) {
        return Status::FileFault;
    }
    if outcome.failed {
        return Status::ListenFault;
    }
    limit_at(filled.or(outcome.refused))
}

// Memory was wanting for a piece of the run, or for its end.
fn wants_memory(outcome: &Outcome) -> bool
    ensures { result ≡ spec.wants_memory outcome.now }
{
    outcome.lost || matches!(outcome.short, Some(Want::Memory))
}

fn is_unput(put: &Result<Put, WantMemory>) -> bool
    ensures { result ≡ spec.is_unput put.now }
{
    matches!(put, Ok(Put::Failed))
}

// The status of a run that took all calls, or no more than so many.
fn limit_at(full: Option<Full>) -> Status
    ensures { result ≡ spec.limit_at full }
{
    match full {
        Some(full) => Status::Limit {
            arrivals: full.arrivals,
            bytes: full.bytes,
        },
        None => Status::Ok,
    }
}
