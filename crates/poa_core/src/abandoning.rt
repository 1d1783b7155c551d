//! Workers give the run up.
ghost use Rattle.std.specs.Prelude.{◌<◌};
ghost use Rattle.poa_core.specs.Answers as answers;

use core_run::Run;

/// A worker below 16 gives the run up; one that did before changes nothing. Takes no memory.
pub fn abandon(run: &mut Run, worker: u32)
    requires { worker < 16 }
    ensures { answers.Abandons worker run.old run.new }
{
    if run.is_abandoned(worker) {
        return;
    }
    run.abandon(worker);
}
