//! The answers to an administrator's commands.
use crate::bytes::Bytes;
use crate::copy::TryClone;
use crate::oid::Oid;
use std::alloc::AllocError;

/// The answer to a command.
#[derive(Clone, PartialEq, Eq, Drop)]
pub enum Answer {
    Good,
    /// Good, with the id that was made.
    GoodId(Oid),
    /// Good, with the text of the reference.
    GoodIor(Bytes),
    No(Reason),
}

/// Why a command was refused.
#[derive(Clone, Copy, PartialEq, Eq, Drop)]
pub enum Reason {
    NoManager,
    AdapterInactive,
    AdapterNonExistent,
    NoTemplate,
    AdapterAlreadyExists,
    /// So many adapters were created in the run.
    TooMany { count: u32 },
    WrongPolicy,
    NoServant,
    ServantAlreadyActive,
    BadId,
    ObjectAlreadyActive,
    ObjectNotActive,
    ServantNotActive,
    NoForward,
    /// The first word that is wrong, counted from 1.
    BadWord { word: u32 },
}

impl TryClone for Answer {
    fn try_clone(&self) -> Result<Self, AllocError> {
        self.clone()
    }
}
