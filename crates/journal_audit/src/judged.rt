//! What becomes of an entry.
ghost use Rattle.std.specs.Prelude.{◌≡◌};
ghost use Rattle.journal_audit.specs.Judging.{breach_of};

use crate::breach::Breach;
use core_outboxes::Filed;

/// What becomes of an entry that comes.
#[derive(Drop)]
pub(crate) enum Judged {
    /// It is taken. A Collect gives this reply, any other entry none.
    Taken(Option<Filed>),
    /// It may not follow.
    Refused(Breach),
}

impl Judged {
    /// What becomes of an entry that gives no reply.
    pub(crate) fn of(breach: Option<Breach>) -> Judged
        ensures { breach_of result ≡ breach }
    {
        match breach {
            None => Judged::Taken(None),
            Some(breach) => Judged::Refused(breach),
        }
    }
}
