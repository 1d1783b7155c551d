//! What a thread costs that sleeps at a bell.
ghost use Rattle.std.specs.Prelude.{◌≡◌};

use crate::tally::Tally;
use seat_lock::SeatLock;
use std::alloc::Global;
use std::sync::Wait;
use std::time::{Clock, CpuClock, Duration, Instant};

/// The microseconds of processor time, and of time, that a sleep of a second at a bell takes.
pub fn sleep_a_second<R: Wait + Clock + CpuClock>(
    rt: &R,
    alloc: Global,
) -> anyhow::Result<(u64, u64)> {
    let (lock, mut seat) = SeatLock::new(alloc, Tally { count: 0 })?;
    let start = Instant::now(rt)?;
    let before = rt.process_cpu_time()?;
    let heard = lock.listen(&mut seat, 3);
    lock.sleep(rt, 3, heard, Duration::from_secs(1));
    let spent = rt.process_cpu_time()?.saturating_sub(before);
    let passed = start.elapsed(rt)?;
    Ok((
        spent.as_micros().min(1 << 40) as u64,
        passed.as_micros().min(1 << 40) as u64,
    ))
}
