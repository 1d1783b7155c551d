//! A worker makes its next entry.
ghost use Rattle.std.specs.Prelude.{◌≡◌, ◌<◌};
ghost use Rattle.poa_core.specs.Answers as answers;

use crate::step_out::StepOut;
use core_run::Run;
use history_standing::Stage;
use poa_base::{Point, WantMemory};

/// What a worker is at between two of its turns.
fn point_of(stage: Stage) -> Point
    ensures { result ≡ answers.point_of stage }
{
    match stage {
        Stage::Free => Point::Free,
        Stage::Trying(arrival) => Point::Trying { arrival },
        Stage::Incarnating(arrival, _) => Point::Incarnating { arrival },
        Stage::Serving(arrival) | Stage::Ran(arrival) => Point::Serving { arrival },
        Stage::Removing(activation) => Point::Etherealizing { activation },
    }
}

/// A worker below 16 makes its next entry; or nothing changes. What was begun can always be ended.
pub fn step(run: &mut Run, worker: u32) -> Result<StepOut, WantMemory>
    requires { worker < 16 }
    ensures { answers.Steps worker run.old result run.new }
{
    if run.is_abandoned(worker) {
        return Ok(StepOut::Stopped);
    }
    if !run.proceed(worker)? {
        return Ok(StepOut::Idle {
            over: run.is_over(),
        });
    }
    Ok(StepOut::Did(point_of(run.stage(worker))))
}
