//! The next entry of a worker.
ghost use Rattle.std.specs.Prelude.{◌≡◌, ◌<◌, true, false, None, IfOk, IsOk, OnErr};
ghost use Rattle.history_standing.specs.Stages as begun;
ghost use Rattle.poa_history.specs.Turns.{turn};
ghost use Rattle.core_arrivals.specs.Begun.{only_ends};
ghost use Rattle.core_run.specs.Agrees.{history};
ghost use Rattle.core_run.specs.Kept.{IsKept, life};
ghost use Rattle.core_run.specs.Proceeds.{Proceeds};

use crate::inside::Inside;
use crate::running::{end, run};
use crate::taking::take;
use core_arrivals::{queue, workers};
use core_turns::Known;
use history_standing::Stage;
use poa_base::{Entry, WantMemory};

/// The entry that a worker makes next, asked of all that is known. It stands by itself, so that a turn that is told
/// without it gets nothing ready for it.
#[inline(never)]
fn asked(inside: &mut Inside, worker: u32) -> Result<Option<Entry>, WantMemory>
    requires kept { IsKept inside.old }
    requires worker { worker < 16 }
    ensures next { IfOk result
        (λ entry. entry ≡ turn inside.new.config inside.new.run (history inside.new) worker) }
    ensures ends { only_ends (begun.stage (history inside.new) worker) ≡ true → IsOk result }
    ensures kept { IsKept inside.new }
    ensures same { life inside.new ≡ life inside.old }
{
    let known = Known {
        config: &inside.config,
        run: inside.run,
        entries: &inside.entries,
        calls: &inside.tables.calls,
        queue: &inside.tables.queue,
        standing: &inside.state.standing,
        settings: &inside.state.settings,
    };
    known.next(
        inside.alloc,
        &inside.tables.workers,
        worker,
        &mut inside.tables.held,
    )
}

/// The entry that a worker makes next. That it has only to end what it began can always be told. Of a request that is
/// served it is told by that alone.
#[tactic(auto, using(crate::proofs::NextTurn::run_next, crate::proofs::NextTurn::done_next))]
pub fn next(inside: &mut Inside, worker: u32) -> Result<Option<Entry>, WantMemory>
    requires kept { IsKept inside.old }
    requires worker { worker < 16 }
    ensures next { IfOk result
        (λ entry. entry ≡ turn inside.new.config inside.new.run (history inside.new) worker) }
    ensures ends { only_ends (begun.stage (history inside.new) worker) ≡ true → IsOk result }
    ensures kept { IsKept inside.new }
    ensures same { life inside.new ≡ life inside.old }
{
    match workers::stage(&inside.tables.workers, worker) {
        Stage::Serving(_) => Ok(Some(Entry::Run { worker })),
        Stage::Ran(_) => Ok(Some(Entry::Done { worker })),
        _ => asked(inside, worker),
    }
}

/// A worker that has nothing begun, or neither serves a request nor ran one, makes its next entry, if it has one.
fn proceed_asked(inside: &mut Inside, worker: u32) -> Result<bool, WantMemory>
    requires kept { IsKept inside.old }
    requires worker { worker < 16 }
    requires going { begun.is_abandoned (history inside.old) worker ≡ false }
    ensures kept { IsKept inside.new }
    ensures made { IfOk result (λ made. Proceeds worker made (life inside.old) (life inside.new)) }
    ensures err { OnErr result (life inside.new ≡ life inside.old) }
    ensures ends { only_ends (begun.stage (history inside.old) worker) ≡ true → IsOk result }
{
    let Some(entry) = asked(inside, worker)? else {
        return Ok(false);
    };
    take(inside, entry)?;
    Ok(true)
}

/// A worker that hasn't given the run up makes its next entry, if it has one: all of it takes effect, or nothing changes.
/// What was begun can always be ended.
pub fn proceed(inside: &mut Inside, worker: u32) -> Result<bool, WantMemory>
    requires kept { IsKept inside.old }
    requires worker { worker < 16 }
    requires going { begun.is_abandoned (history inside.old) worker ≡ false }
    ensures kept { IsKept inside.new }
    ensures made { IfOk result (λ made. Proceeds worker made (life inside.old) (life inside.new)) }
    ensures err { OnErr result (life inside.new ≡ life inside.old) }
    ensures ends { only_ends (begun.stage (history inside.old) worker) ≡ true → IsOk result }
{
    match workers::stage(&inside.tables.workers, worker) {
        Stage::Serving(_) => run(inside, worker)?,
        Stage::Ran(_) => end(inside, worker),
        _ => return proceed_asked(inside, worker),
    }
    Ok(true)
}

/// Whether it is seen at a glance that a worker makes no entry next: it has nothing begun, no call waits, and no activation is on
/// its way in or out.
pub fn is_surely_idle(inside: &Inside, worker: u32) -> bool
    requires kept { IsKept inside.now }
    requires worker { worker < 16 }
    ensures none { result ≡ true
        → turn inside.now.config inside.now.run (history inside.now) worker ≡ None }
{
    match workers::stage(&inside.tables.workers, worker) {
        Stage::Free => {
            queue::count(&inside.tables.queue) == 0 && inside.state.standing.activations.is_still()
        }
        _ => false,
    }
}
