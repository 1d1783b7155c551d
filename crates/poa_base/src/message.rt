//! The calls that come in: requests and locates of GIOP, and an administrator's lines.
use crate::bytes::Bytes;
use crate::command::Command;
use crate::copy::TryClone;
use std::alloc::AllocError;

/// What a reply needs of the message that it answers: CORBA 3.3 Part 2, chapter 9.
///
/// A LocateRequest has flags 0. An administrator's line has 0 and false in every field.
#[derive(Clone, Copy, PartialEq, Eq, Drop)]
pub struct Head {
    /// The request id.
    pub id: u32,
    /// The minor version of GIOP 1.
    pub minor: u8,
    /// Whether numbers are little-endian.
    pub little: bool,
    /// The response flags.
    pub flags: u8,
    /// Whether a LocateReply is asked.
    pub locate: bool,
}

/// The body of a request, whose arguments are not read yet.
#[derive(Clone, PartialEq, Eq, Drop)]
pub struct Body {
    pub bytes: Bytes,
    /// Whether numbers are little-endian.
    pub little: bool,
    /// How many bytes of the message stand before `bytes`, for the alignment of CDR.
    pub base: u64,
}

/// One call. A target that gives no key is none.
#[derive(Clone, PartialEq, Eq, Drop)]
pub enum Call {
    Request {
        head: Head,
        target: Option<Bytes>,
        operation: Bytes,
        body: Body,
    },
    Locate {
        head: Head,
        target: Option<Bytes>,
    },
    Line {
        number: u64,
        command: Command,
    },
}

impl TryClone for Body {
    fn try_clone(&self) -> Result<Self, AllocError> {
        self.clone()
    }
}

impl TryClone for Call {
    fn try_clone(&self) -> Result<Self, AllocError> {
        self.clone()
    }
}
