use std::io;
use std::time::{Clock, Instant};

/// Work that takes a time in proportion to the steps. Use the answer, or there is nothing to do.
pub fn busy(steps: u64, seed: u64) -> u64 {
    let mut x = seed | 1;
    for _ in 0..steps {
        x ^= x << 13;
        x ^= x >> 7;
        x ^= x << 17;
    }
    x
}

/// How many steps take a thousand microseconds here.
pub fn steps_a_millisecond<R: Clock>(rt: &R) -> io::Result<u64> {
    let steps = 100_000_000;
    let start = Instant::now(rt)?;
    let x = busy(steps, 7);
    let micros = start.elapsed(rt)?.as_micros().min(1 << 40) as u64;
    // The answer of `busy` is never 0.
    Ok(steps * 1000 / micros.max(x.min(1)).max(1))
}
