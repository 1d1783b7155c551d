//! Where a server listens.
use crate::bytes::Bytes;
use crate::copy::TryClone;
use std::alloc::AllocError;

/// The host and port of an IIOP profile: CORBA 3.3 Part 2, chapter 9.
#[derive(Clone, PartialEq, Eq, Drop)]
pub struct Endpoint {
    pub host: Bytes,
    pub port: u16,
}

impl TryClone for Endpoint {
    fn try_clone(&self) -> Result<Self, AllocError> {
        self.clone()
    }
}
