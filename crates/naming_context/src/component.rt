//! The components of names.
use crate::istring::Istring;
use poa_base::TryClone;
use std::alloc::AllocError;

/// A component of a name: `NameComponent` of CosNaming.
#[derive(Clone, PartialEq, Eq, PartialOrd, Ord, Drop)]
pub struct Component {
    pub id: Istring,
    pub kind: Istring,
}

impl TryClone for Component {
    fn try_clone(&self) -> Result<Self, AllocError> {
        self.clone()
    }
}
