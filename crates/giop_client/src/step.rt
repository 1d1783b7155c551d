//! One step of a call.
ghost use Rattle.std.specs.Prelude.{◌≡◌};
ghost use Rattle.giop_client.specs.Ending.{step_of};

use crate::call_end::CallEnd;
use crate::hop::Hop;
use poa_base::Ior;

/// Whether a call goes on, with the reference that a forward brought, or has ended.
#[derive(Drop)]
pub(crate) enum Step {
    On(Ior),
    End(CallEnd),
}

impl Step {
    /// The step that follows from what a server says.
    pub(crate) fn by(said: Hop) -> Step
        ensures { result ≡ step_of said }
    {
        Step::End(match said {
            Hop::Forward { ior } => return Step::On(ior),
            Hop::Result { body } => CallEnd::Result { body },
            Hop::User { id } => CallEnd::User { id },
            Hop::System { id, minor, done } => CallEnd::System { id, minor, done },
            Hop::Closed => CallEnd::Closed,
            Hop::BadReply => CallEnd::BadReply,
        })
    }
}
