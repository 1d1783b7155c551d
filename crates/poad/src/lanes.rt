//! How many lanes are taken.
use std::io::Eprint;
use std::sync::atomic::{AtomicU32, Ordering};

/// The lanes of a server, and how many of them serve somebody. That the last one is taken is said on standard error, and
/// when one is free again.
#[derive(Drop)]
pub(crate) struct Lanes<R: Eprint + Drop> {
    rt: R,
    count: u32,
    taken: AtomicU32,
}

impl<R: Eprint + Drop> Lanes<R> {
    /// So many lanes, all free.
    pub(crate) fn new(rt: R, count: u32) -> Self {
        Lanes {
            rt,
            count,
            taken: AtomicU32::new(0),
        }
    }

    /// One more serves somebody.
    pub(crate) fn take(&self) {
        if self.taken.fetch_add(1, Ordering::SeqCst).wrapping_add(1) == self.count {
            let count = self.count;
            let _ = eprintln!(self.rt; "poad: all {count} lanes are taken; who comes now waits");
        }
    }

    /// One serves nobody any more.
    pub(crate) fn free(&self) {
        if self.taken.fetch_sub(1, Ordering::SeqCst) == self.count {
            let _ = eprintln!(self.rt; "poad: a lane is free");
        }
    }
}
