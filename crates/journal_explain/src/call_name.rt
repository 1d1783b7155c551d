//! How a call of a journal is named.
ghost use Rattle.std.specs.Prelude.{◌≡◌};
ghost use Rattle.journal_explain.specs.Naming as naming;

use poa_base::Call;

/// How a call of a journal is named.
#[derive(Clone, Copy, Drop)]
pub struct CallName {
    /// Its number among the calls that arrived, from 0 on.
    pub arrival: u64,
    /// The connection on which it arrived.
    pub conn: u32,
    /// Its request id. An administrator's line has none.
    pub id: Option<u32>,
}

impl CallName {
    /// The name of the call that arrives as the one of this number.
    pub(crate) fn of(arrival: u64, conn: u32, call: &Call) -> CallName
        ensures { result ≡ naming.name_of arrival conn call.now }
    {
        let id = match call {
            Call::Request { head, .. } | Call::Locate { head, .. } => Some(head.id),
            Call::Line { .. } => None,
        };
        CallName { arrival, conn, id }
    }
}
