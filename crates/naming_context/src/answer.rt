//! What a request is answered.
use crate::component::Component;
use crate::reason::Reason;
use poa_base::{Ior, Items, Outcome};

/// What a request is answered.
#[derive(Drop)]
pub enum Answer {
    /// The request doesn't tell its object by a key.
    Addressing,
    /// An outcome without members and without a reference.
    Outcome(Outcome),
    /// A result that is a reference.
    Reference(Ior),
    /// The name isn't found: why, and the name from the component on that couldn't be followed.
    NotFound { why: Reason, rest: Items<Component> },
}
