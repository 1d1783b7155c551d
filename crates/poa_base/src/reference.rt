//! An interoperable object reference: CORBA 3.3 Part 2, chapter 7.
use crate::bytes::Bytes;
use crate::copy::TryClone;
use crate::items::Items;
use std::alloc::AllocError;

/// A tagged profile: its tag and its data, an encapsulation.
#[derive(Clone, Drop)]
pub struct Profile {
    pub tag: u32,
    pub bytes: Bytes,
}

/// A reference: the type id and the profiles.
#[derive(Clone, Drop)]
pub struct Ior {
    pub type_id: Bytes,
    pub profiles: Items<Profile>,
}

impl TryClone for Profile {
    fn try_clone(&self) -> Result<Self, AllocError> {
        self.clone()
    }
}

impl TryClone for Ior {
    fn try_clone(&self) -> Result<Self, AllocError> {
        self.clone()
    }
}
