//! How long a key is good.
use poa_base::Stamp;

/// The lifespan of a key, with what goes with it: a transient key is good for one adapter of one run, a persistent
/// one for good, and it may have a tag, which is above 0.
#[derive(Clone, Copy, Drop)]
pub(crate) enum KeyLifespan {
    Transient { stamp: Stamp },
    Persistent { tag: u16 },
}
