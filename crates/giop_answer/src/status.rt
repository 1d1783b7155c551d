//! What a reply is: CORBA 3.3 Part 2, 9.4.3 and 9.4.6.

/// The status of a Reply.
pub(crate) const NO_EXCEPTION: u32 = 0;

pub(crate) const USER_EXCEPTION: u32 = 1;

pub(crate) const SYSTEM_EXCEPTION: u32 = 2;

pub(crate) const LOCATION_FORWARD: u32 = 3;

pub(crate) const NEEDS_ADDRESSING_MODE: u32 = 5;

/// The status of a LocateReply.
pub(crate) const UNKNOWN_OBJECT: u32 = 0;

pub(crate) const OBJECT_HERE: u32 = 1;

pub(crate) const OBJECT_FORWARD: u32 = 2;

pub(crate) const LOC_NEEDS_ADDRESSING_MODE: u32 = 5;
