//! What comes next in a stream.
use crate::message::Message;
use crate::why::Why;

/// What comes next in a stream.
#[derive(Drop)]
pub enum Next {
    /// The next message, in the order of last parts.
    Message(Message),
    /// No whole message and no bad place. So many bytes belong to no message that was given, those of
    /// open messages with the headers and ids of their parts.
    NeedMore { have: u64 },
    /// The message whose header stands here is bad, and nothing behind it is read.
    Bad { at: u64, why: Why },
}
