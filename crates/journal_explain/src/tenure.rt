//! What was set, as it stood.
use crate::basis::Basis;
use crate::since::Since;
use poa_base::Command;

/// On what it rests that a call is held or decided, and since when.
#[derive(Drop)]
pub struct Tenure {
    pub basis: Basis,
    /// The entry that set it last; none where it is as it was when the run began.
    pub since: Option<Since>,
    /// The administrator's command that this entry admits.
    pub command: Option<Command>,
}
