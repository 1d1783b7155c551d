//! Which calls ask a reply, and what the reply needs of them.
ghost use Rattle.std.specs.Prelude.{◌≡◌, Some};
ghost use Rattle.poa_history.specs.Heads as heads;
ghost use Rattle.poa_history.specs.Replies as replies;

use poa_base::{Call, Head};

/// Whether a call asks a reply: a request by bit 0 of its response flags; every locate and every line.
pub fn asks(call: &Call) -> bool
    ensures { result ≡ replies.asks (Some call.now) }
{
    match call {
        Call::Request { head, .. } => head.flags % 2 == 1,
        Call::Locate { .. } | Call::Line { .. } => true,
    }
}

/// What the reply needs of the message that it answers; the line of an administrator has none.
pub fn head_of(call: &Call) -> Head
    ensures { result ≡ heads.head_of (Some call.now) }
{
    match call {
        Call::Request { head, .. } | Call::Locate { head, .. } => *head,
        Call::Line { .. } => Head {
            id: 0,
            minor: 0,
            little: false,
            flags: 0,
            locate: false,
        },
    }
}
