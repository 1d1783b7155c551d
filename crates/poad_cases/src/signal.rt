//! A word that threads share.
use std::alloc::{AllocError, Global};
use std::sync::Arc;
use std::sync::atomic::{AtomicBool, Ordering};

/// A word that is raised once, and stays so, for all who have a copy.
#[derive(Drop)]
pub struct Signal {
    word: Arc<AtomicBool, Global>,
}

impl Signal {
    /// A signal that isn't raised.
    pub fn new(alloc: Global) -> Result<Self, AllocError> {
        Ok(Signal {
            word: Arc::new(alloc, AtomicBool::new(false))?,
        })
    }

    /// Raises it.
    pub fn raise(&self) {
        self.word.store(true, Ordering::SeqCst);
    }

    /// Whether it was raised.
    pub fn is_raised(&self) -> bool {
        self.word.load(Ordering::SeqCst)
    }

    /// The same signal once more.
    pub fn try_clone(&self) -> Result<Self, AllocError> {
        Ok(Signal {
            word: Arc::try_clone(&self.word)?,
        })
    }
}
