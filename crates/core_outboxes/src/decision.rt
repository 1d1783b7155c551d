//! What is decided of a call.
use poa_base::Reply;

/// The arrival that an entry decides, and its reply.
#[derive(Drop)]
pub struct Decision {
    pub arrival: u64,
    pub reply: Reply,
}
