//! The verdict on an arrival.
ghost use Rattle.std.specs.Prelude.{◌≡◌, reverse, IfOk};
ghost use Rattle.poa_history.specs.Verdicts as verdicts;

use crate::crowded::is_crowded;
use crate::set::settings_of;
use core_standing::standing_of;
use core_turns::verdict_on;
use poa_base::{Entry, Verdict, WantMemory};
use poa_history::Run;
use poa_history::calls::call_of;

/// The verdict on an arrival for a worker, after a history that stands oldest first; none where the
/// arrival is held. CORBA 3.3 Part 1, section 15.2.3.
#[tactic(auto, unfolding(poa_history::specs::Verdicts::verdict))]
pub fn slow_verdict(
    run: &Run<'_>,
    history: &[Entry],
    arrival: u64,
    worker: u32,
) -> Result<Option<Verdict>, WantMemory>
    ensures { IfOk result
        (λ verdict. verdict ≡ verdicts.verdict run.now.config.now run.now.number
        (reverse history.now) arrival
        worker) }
{
    let Some(call) = call_of(history, arrival) else {
        return Ok(None);
    };
    let standing = standing_of(run.alloc, run.config, run.number, history)?;
    let settings = settings_of(run.alloc, run.config, history)?;
    let crowded = is_crowded(history, arrival);
    verdict_on(
        run.alloc, run.config, run.number, &standing, &settings, crowded, call, worker,
    )
}
