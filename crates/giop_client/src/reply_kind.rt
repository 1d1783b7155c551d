//! The kinds of Reply: CORBA 3.3 Part 2, 9.4.3.1.
ghost use Rattle.std.specs.Prelude.{◌≡◌};
ghost use Rattle.giop_client.specs.Reply.{kind_of_status};

// The statuses of a Reply that a client goes by.
const NO_EXCEPTION: u32 = 0;

const USER_EXCEPTION: u32 = 1;

const SYSTEM_EXCEPTION: u32 = 2;

const LOCATION_FORWARD: u32 = 3;

/// What a Reply is, by its status. LOCATION_FORWARD_PERM and NEEDS_ADDRESSING_MODE aren't among them: no such reply is
/// an answer to a request of this client.
#[derive(Clone, Copy, Drop)]
pub(crate) enum ReplyKind {
    NoException,
    UserException,
    SystemException,
    LocationForward,
}

impl ReplyKind {
    /// The kind of this status.
    pub(crate) fn of(status: u32) -> Option<Self>
        ensures { result ≡ kind_of_status status }
    {
        match status {
            NO_EXCEPTION => Some(ReplyKind::NoException),
            USER_EXCEPTION => Some(ReplyKind::UserException),
            SYSTEM_EXCEPTION => Some(ReplyKind::SystemException),
            LOCATION_FORWARD => Some(ReplyKind::LocationForward),
            _ => None,
        }
    }
}
