//! What the core gives answers what messages ask. The function does nothing: its contract is the law.
ghost use Rattle.session_laws.specs.Calls.{MessagesAreHeaded, RepliesAnswer};

/// A call that a message makes has a head of GIOP 1.0, 1.1 or 1.2 that says whether it is a locate, and a reply that fits such a call
/// answers that head.
pub fn a_reply_answers_its_call()
    ensures headed { MessagesAreHeaded }
    ensures answers { RepliesAnswer }
{}
