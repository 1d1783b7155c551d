//! The place before the lock. Who holds it finds the lock free, so that many calls of one thread cost one hand-over. No
//! clause speaks of it, nor of how one waits for it.
use crossbeam_utils::CachePadded;
use std::sync::atomic::{AtomicBool, Ordering};
use std::sync::{Mutex, MutexGuard, Wait};
use std::thread::yield_now;

/// How often one looks at the place before one lets another thread run. A hold takes a few microseconds, which is some
/// hundred looks and less than it takes to fall asleep and to be woken.
const LOOKS: u32 = 400;

/// How often one lets another thread run before one sleeps. A holder that lost its processor gets it back so.
const YIELDS: u32 = 33;

/// The place before the lock, on cache lines of its own: those who look at it don't slow down its holder.
#[derive(Drop)]
pub(crate) struct Place {
    inside: CachePadded<Inside>,
}

#[derive(Drop)]
struct Inside {
    /// Whether somebody holds the mutex, or is about to let it go. It is read in place of trying the mutex, since a try
    /// takes the cache line away from the holder.
    is_held: AtomicBool,
    mutex: Mutex<()>,
}

/// The place before the lock, held. It is let go before a bell is rung, a gate is passed, or bytes are read or written.
pub struct Front<'a> {
    is_held: &'a AtomicBool,
    guard: MutexGuard<'a, ()>,
}

impl Drop for Front<'_> {
    fn drop(self) {
        let Self { is_held, guard } = self;
        is_held.store(false, Ordering::SeqCst);
        drop(guard);
    }
}

impl Place {
    /// A place that nobody holds.
    pub(crate) fn new() -> Place {
        Place {
            inside: CachePadded::new(Inside {
                is_held: AtomicBool::new(false),
                mutex: Mutex::new(()),
            }),
        }
    }

    /// Waits for the place: awake for a while, and then asleep.
    pub(crate) fn hold<R: Wait>(&self, rt: &R) -> Front<'_> {
        for _ in 0..YIELDS {
            if let Some(front) = self.look() {
                return front;
            }
            yield_now();
        }
        let inside: &Inside = &self.inside;
        inside.held(inside.mutex.lock(rt))
    }

    // Looks whether the place is free, and takes it where it is.
    fn look(&self) -> Option<Front<'_>> {
        let inside: &Inside = &self.inside;
        for _ in 0..LOOKS {
            if !inside.is_held.load(Ordering::SeqCst) {
                if let Some(guard) = inside.mutex.try_lock() {
                    return Some(inside.held(guard));
                }
            }
        }
        None
    }
}

impl Inside {
    // The place, once its mutex is held.
    fn held<'a>(&'a self, guard: MutexGuard<'a, ()>) -> Front<'a> {
        self.is_held.store(true, Ordering::SeqCst);
        Front {
            is_held: &self.is_held,
            guard,
        }
    }
}
