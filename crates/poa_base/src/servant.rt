//! The servants: which one, and what it holds.
use crate::bytes::Bytes;
use crate::copy::TryClone;
use crate::items::Items;
use std::alloc::AllocError;

/// Which servant: a configured one by its place, or a fresh one by its activation.
#[derive(Clone, Copy, PartialEq, Eq, Drop)]
pub enum Sid {
    Named(u32),
    Fresh(u32),
}

/// The state of a servant, by its kind.
#[derive(Clone, Debug, PartialEq, Eq, Drop)]
pub enum State {
    Register(i64),
    Book(Items<Bytes>),
    Echo,
    Fault,
}

impl TryClone for State {
    fn try_clone(&self) -> Result<Self, AllocError> {
        self.clone()
    }
}
