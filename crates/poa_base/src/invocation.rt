//! What is asked of a servant, and what is answered.
use crate::answer::Answer;
use crate::bytes::Bytes;
use crate::copy::TryClone;
use crate::endpoint::Endpoint;
use crate::exception::SysExc;
use crate::message::Head;
use std::alloc::AllocError;

/// A request to be written by a client.
#[derive(Clone, Drop)]
pub struct Ask {
    pub head: Head,
    pub key: Bytes,
    pub operation: Bytes,
    pub argument: Option<Datum>,
}

/// An argument or a result.
#[derive(Clone, Drop)]
pub enum Datum {
    /// `long long`.
    Long(i64),
    /// `unsigned long`.
    Ulong(u32),
    /// `boolean`.
    Flag(bool),
    /// `sequence<octet>`.
    Octets(Bytes),
    /// `string`.
    Text(Bytes),
}

/// How an operation ended.
#[derive(Drop)]
pub enum Outcome {
    /// A result, or none.
    Value(Option<Datum>),
    /// A user exception, by its repository id.
    User(Bytes),
    /// A system exception.
    System(SysExc),
}

/// The answer to a call.
#[derive(Drop)]
pub enum Reply {
    /// How the operation ended.
    Outcome(Outcome),
    /// LOCATION_FORWARD or OBJECT_FORWARD.
    Forward { endpoint: Endpoint, key: Bytes },
    /// NEEDS_ADDRESSING_MODE or LOC_NEEDS_ADDRESSING_MODE.
    Addressing,
    /// OBJECT_HERE.
    Here,
    /// UNKNOWN_OBJECT.
    UnknownObject,
    /// The answer to an administrator's line.
    Answer { number: u64, answer: Answer },
}

impl TryClone for Ask {
    fn try_clone(&self) -> Result<Self, AllocError> {
        self.clone()
    }
}

impl TryClone for Datum {
    fn try_clone(&self) -> Result<Self, AllocError> {
        self.clone()
    }
}
