//! The words of the table: two for the rule, and then those on which threads sleep, each in a cache line of its own.

/// The number that is served.
pub(crate) const SERVED: usize = 0;

/// The next ticket.
pub(crate) const NEXT: usize = 1;

/// The words of a cache line.
pub(crate) const LINE: usize = 8;

/// The first word on which the holders of tickets sleep.
pub(crate) const FIRST_LANE: usize = LINE;

/// How many such words there are.
pub(crate) const LANES: u64 = 64;

/// The word of the first bell.
pub(crate) const FIRST_BELL: usize = FIRST_LANE + LINE * 64;

/// How many bells a lock has.
pub const BELLS: u32 = 96;

/// How many words there are.
pub(crate) const WORDS: usize = FIRST_BELL + LINE * 96;

/// The slot of the value.
pub(crate) const SLOT: usize = 0;
