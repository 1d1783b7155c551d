//! A link that works.
ghost use Rattle.std.specs.Prelude.{◌≡◌};
ghost use Rattle.std.specs.Arc.{arc_value};
ghost use Rattle.poa_shared.specs.Seats.{IsIdle};

use crate::memory_link::MemLink;
use outside::{Alarm, Link, Took, Wrote};
use poa_base::WantMemory;
use poa_core::StepOut;
use poa_shared::{Seat, Shared};
use std::alloc::Global;
use std::sync::{Arc, Wait};

/// A link in memory each read of which first makes the turns that a worker has, so that no thread is needed.
#[derive(Drop)]
pub struct WorkedLink<R: Wait + Drop> {
    pub rt: R,
    pub link: MemLink,
    pub shared: Arc<Shared, Global>,
    pub seat: Seat,
    ghost fits: { IsIdle (arc_value shared) seat },
}

/// Makes the turns that the worker has. Where one finds no memory, the worker gives the run up.
fn make_turns<R: Wait>(rt: &R, shared: &Shared, seat: &mut Seat)
    requires { IsIdle shared.now seat.old }
    ensures { IsIdle shared.now seat.new }
{
    for _ in rt.forever() {
        match shared.step(rt, seat, 0) {
            Ok(StepOut::Did(_)) => (),
            Ok(StepOut::Idle { .. } | StepOut::Stopped) => return,
            Err(WantMemory) => {
                shared.abandon(rt, seat, 0);
                return;
            }
        }
    }
    unreachable!()
}

impl<R: Wait + Drop> Link for WorkedLink<R> {
    ghost shown = { λ l. l.link };

    fn read(&mut self, buf: &mut [u8], is_owed: bool) -> Took {
        make_turns(&self.rt, &*self.shared, &mut self.seat);
        self.link.read(buf, is_owed)
    }

    fn write(&mut self, piece: &[u8]) -> Wrote {
        self.link.write(piece)
    }

    fn alarm(&self) -> Result<Alarm, WantMemory> {
        self.link.alarm()
    }
}
