//! A gate that takes its time.
use outside::Gate;
use poa_base::Point;
use std::thread;
use std::time::{Clock, Duration};

/// Keeps each worker for the same time at each point. Without a time it keeps nobody.
#[derive(Drop)]
pub struct WaitingGate<C: Clock + Drop> {
    clock: C,
    milliseconds: u32,
}

impl<C: Clock + Drop> WaitingGate<C> {
    /// A gate that keeps a worker for so many milliseconds.
    pub fn new(clock: C, milliseconds: u32) -> Self {
        WaitingGate {
            clock,
            milliseconds,
        }
    }
}

impl<C: Clock + Drop> Gate for WaitingGate<C> {
    fn pass(&self, _point: Point) {
        if self.milliseconds > 0 {
            thread::sleep(&self.clock, Duration::from_millis(self.milliseconds as u64));
        }
    }

    fn is_open(&self) -> bool {
        self.milliseconds == 0
    }
}
