//! The first entry of a history that isn't legal.
ghost use Rattle.std.specs.Prelude.{reverse, IfOk, MatchOption};
ghost use Rattle.poa_history.specs.Legal.{IsLegal};
ghost use Rattle.poa_model.specs.Illegal.{IsFirstIllegal};

use crate::follow::may_follow;
use poa_base::{Entry, WantMemory};
use poa_history::Run;

/// The place of the first entry that may not follow the ones before it; none where the history, which
/// stands oldest first, is legal in a run of this number that takes so many calls. `WantMemory`: no memory
/// was left to compute it.
pub fn first_illegal(
    run: &Run<'_>,
    limit: u64,
    history: &[Entry],
) -> Result<Option<usize>, WantMemory>
    ensures { IfOk result
        (λ place. MatchOption place (IsLegal run.now.config.now run.now.number limit
        (reverse history.now))
        (IsFirstIllegal run.now.config.now run.now.number limit history.now)) }
{
    for (i, entry) in history.iter().enumerate() {
        if !may_follow(run, limit, &history[..i], entry)? {
            return Ok(Some(i));
        }
    }
    Ok(None)
}
