//! The limits of a run: how many of each there may be, and how large a message.

/// How many calls may arrive.
pub const CALLS: u64 = 4_000_000;

/// How many connections may enter.
pub const CONNECTIONS: u64 = 4_000_000;

/// How many requests and locates may stand unadmitted. One more that arrives is refused.
pub const UNADMITTED: u64 = 65_536;

/// How many adapters may be created, the root and those of the configuration among them.
pub const ADAPTERS: u32 = 65_536;

/// The largest size that a message of GIOP may have, without its header, in octets.
pub const MESSAGE_LIMIT: u32 = 1_048_576;

/// How many objects the configuration may have.
pub const OBJECTS: usize = 65_536;
