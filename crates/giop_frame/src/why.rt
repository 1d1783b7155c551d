//! Why a place of a stream is bad.

/// Why a place of a stream is bad: the first of these that its message breaks.
#[derive(Clone, Copy)]
pub enum Why {
    /// The first four bytes aren't `GIOP`.
    BadMagic,
    /// The version isn't 1.0, 1.1 or 1.2.
    BadVersion,
    /// The type is above 7, or is 7 in version 1.0.
    BadType,
    /// The message is above the limit, or the open messages together are above theirs.
    TooLong,
    /// A Fragment that continues no open message, one that is too short for its id, or one of version 1.1.
    StrayFragment,
    /// A Fragment in another byte order than its first part; fragments of a type that has none, or of version
    /// 1.1; a first part that is too short for its id, or whose id is open.
    BadFragment,
}
