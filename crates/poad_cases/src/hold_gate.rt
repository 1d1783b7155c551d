//! A gate that keeps a worker until a reply was written.
use crate::signal::Signal;
use outside::Gate;
use poa_base::Point;
use std::sync::atomic::{AtomicBool, Ordering};
use std::thread;
use std::time::{Clock, Duration};

// How often it looks for the signal, a millisecond after the last look.
const LOOKS: u32 = 10_000;

/// Keeps the first worker at which a servant runs until a signal is raised, for at most ten seconds, and tells
/// whether they passed in vain. So it shows that other threads go on meanwhile.
#[derive(Drop)]
pub struct HoldGate<C: Clock + Drop> {
    clock: C,
    signal: Signal,
    has_held: AtomicBool,
    has_timed_out: AtomicBool,
}

impl<C: Clock + Drop> HoldGate<C> {
    /// A gate that holds a worker until the signal is raised.
    pub fn new(clock: C, signal: Signal) -> Self {
        HoldGate {
            clock,
            signal,
            has_held: AtomicBool::new(false),
            has_timed_out: AtomicBool::new(false),
        }
    }

    /// Whether it kept a worker for the whole time.
    pub fn has_timed_out(&self) -> bool {
        self.has_timed_out.load(Ordering::SeqCst)
    }

    // Waits for the signal, and answers whether it came.
    fn has_heard(&self) -> bool {
        for _ in 0..LOOKS {
            if self.signal.is_raised() {
                return true;
            }
            thread::sleep(&self.clock, Duration::from_millis(1));
        }
        false
    }
}

impl<C: Clock + Drop> Gate for HoldGate<C> {
    fn pass(&self, point: Point) {
        if !matches!(point, Point::Serving { .. }) || self.has_held.swap(true, Ordering::SeqCst) {
            return;
        }
        if !self.has_heard() {
            self.has_timed_out.store(true, Ordering::SeqCst);
        }
    }
}
