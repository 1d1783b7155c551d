//! What an object key says.
use crate::copy::TryClone;
use crate::oid::Oid;
use crate::path::Path;
use std::alloc::AllocError;

/// How long a reference is good: the lifespan policy of CORBA 3.3 Part 1, chapter 15.
#[derive(Clone, Copy, Drop)]
pub enum Lifespan {
    Transient,
    Persistent,
}

/// Which adapter of which run a transient key means.
#[derive(Clone, Copy, Drop)]
pub struct Stamp {
    pub run: u32,
    pub number: u32,
}

/// An object key: the path of its adapter and the object id, for a transient one its stamp, and for a
/// persistent one its tag.
#[derive(Clone, Drop)]
pub struct Key {
    pub stamp: Option<Stamp>,
    pub path: Path,
    pub oid: Oid,
    /// The tag of the template that wrote it; 0 where there is none, and of a transient key.
    pub tag: u16,
}

impl TryClone for Key {
    fn try_clone(&self) -> Result<Self, AllocError> {
        self.clone()
    }
}
