//! What came of a call.
use crate::call_end::CallEnd;

/// What came of a call.
#[derive(Drop)]
pub struct Followed {
    /// How many forwards were followed.
    pub hops: u32,
    pub end: CallEnd,
}
