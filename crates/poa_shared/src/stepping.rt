//! Workers make their entries.
ghost use Rattle.std.specs.Prelude.{◌≡◌, ◌<◌, ℕ};
ghost use Rattle.seat_lock.specs.Seats.{view};
ghost use Rattle.poa_core.specs.Answers as answers;
ghost use Rattle.poa_shared.specs.Events.{Event, StepsRunning};
ghost use Rattle.poa_shared.specs.Seats.{IsIdle};

use crate::front::Front;
use crate::news::News;
use crate::shared::{Seat, Shared};
use poa_base::WantMemory;
use poa_core::{Core, Phase, StepOut};
use std::sync::Wait;

impl Shared {
    /// A worker below 16 makes its next entry.
    pub fn step<R: Wait>(&self, rt: &R, seat: &mut Seat, worker: u32) -> Result<StepOut, WantMemory>
        requires seat { IsIdle self.now seat.old }
        requires worker { worker < 16 }
        ensures seat { IsIdle self.now seat.new }
        ensures stepped { Event (λ old new. answers.Steps worker old result new) (view seat.old)
            (view seat.new) }
    {
        let mut news = News::none();
        let front = self.front(rt);
        let result = self.step_within(rt, &front, seat, worker, &mut news);
        drop(front);
        self.tell(rt, seat, &news);
        result
    }

    /// The same, by one who holds the place before the lock, and tells the news later.
    pub fn step_within<R: Wait>(
        &self,
        rt: &R,
        _front: &Front<'_>,
        seat: &mut Seat,
        worker: u32,
        news: &mut News,
    ) -> Result<StepOut, WantMemory>
        requires seat { IsIdle self.now seat.old }
        requires worker { worker < 16 }
        ensures seat { IsIdle self.now seat.new }
        ensures stepped { Event (λ old new. answers.Steps worker old result new) (view seat.old)
            (view seat.new) }
    {
        let mut core = self.lock.take(rt, seat);
        core.is_legal();
        let result = step_noted(&mut core, worker, news);
        core.is_legal();
        self.lock.put(seat, core);
        result
    }

    /// The same while the run is running. None where it isn't: then nothing is done.
    pub fn step_running<R: Wait>(
        &self,
        rt: &R,
        _front: &Front<'_>,
        seat: &mut Seat,
        worker: u32,
        news: &mut News,
    ) -> Option<Result<StepOut, WantMemory>>
        requires seat { IsIdle self.now seat.old }
        requires worker { worker < 16 }
        ensures seat { IsIdle self.now seat.new }
        ensures stepped { Event (λ old new. StepsRunning worker old result new) (view seat.old)
            (view seat.new) }
    {
        let mut core = self.lock.take(rt, seat);
        core.is_legal();
        let result = step_if_running(&mut core, worker, news);
        core.is_legal();
        self.lock.put(seat, core);
        result
    }
}

/// The worker makes its next entry, of which whom it concerns is noted.
fn step_noted(core: &mut Core, worker: u32, news: &mut News) -> Result<StepOut, WantMemory>
    requires { worker < 16 }
    ensures { answers.Steps worker core.old result core.new }
{
    let phase = core.phase();
    let result = core.step(worker);
    if let Ok(StepOut::Did(_)) = result {
        news.note(core.fresh(), core.is_surely_idle(worker));
    }
    news.note_phase(phase, core.phase());
    result
}

/// The same while the run is running.
fn step_if_running(
    core: &mut Core,
    worker: u32,
    news: &mut News,
) -> Option<Result<StepOut, WantMemory>>
    requires { worker < 16 }
    ensures { StepsRunning worker core.old result core.new }
{
    match core.phase() {
        Phase::Running => Some(step_noted(core, worker, news)),
        _ => None,
    }
}
