//! What a line brings to its connection.

/// What a line brings to its connection.
#[derive(Clone, Copy)]
pub(crate) enum Line<'a> {
    /// Bytes of a stream of messages.
    Bytes(&'a [u8]),
    /// The words of an administrator's line.
    Words(&'a [u8]),
    /// Its end.
    End,
    /// A call for the replies that it is owed.
    Collect,
}
