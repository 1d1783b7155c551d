//! Why a call isn't taken.

/// The refusal of a call.
#[derive(Clone, Copy, Drop)]
pub enum ArriveFault {
    /// The run is full: so many arrivals, and bytes of them, stood at the first call that wasn't taken.
    Limit { arrivals: u64, bytes: u64 },
    WantMemory,
}
