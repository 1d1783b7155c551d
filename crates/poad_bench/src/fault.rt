//! Why a run fails.
use std::alloc::{AllocError, AllocFailed};
use std::io;

/// Why a run fails: no memory, no clock, no configuration, or a call that the core refused.
#[derive(Clone, Copy, Drop)]
pub struct Fault;

impl From<AllocError> for Fault {
    fn from(_: AllocError) -> Fault {
        Fault
    }
}

impl<T: Drop> From<AllocFailed<T>> for Fault {
    fn from(_: AllocFailed<T>) -> Fault {
        Fault
    }
}

impl From<io::Error> for Fault {
    fn from(_: io::Error) -> Fault {
        Fault
    }
}
