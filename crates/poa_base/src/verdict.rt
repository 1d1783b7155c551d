//! What is decided on a call.
use crate::answer::Answer;
use crate::copy::TryClone;
use crate::endpoint::Endpoint;
use crate::exception::SysExc;
use crate::name::Name;
use std::alloc::AllocError;

/// What is done with a call when it is admitted.
#[derive(Clone, PartialEq, Eq, Drop)]
pub enum Verdict {
    /// The servant of this activation runs.
    Serve(u32),
    /// The default servant runs.
    Preset(Name),
    /// This servant of the locator runs.
    Locator(Name),
    /// A servant is brought by the activator; the activation gets this number.
    Incarnate(u32),
    /// The adapter activator of the parent is asked for the missing child.
    Try,
    Refuse(SysExc),
    Forward(Endpoint),
    /// The target gave no key: the client is to send the reference.
    Addressing,
    /// To a locate: the object is here.
    Here,
    /// To a locate: the object is unknown.
    Unknown,
    /// The answer to a command.
    Answer(Answer),
    /// The command is done, and its answer waits.
    Wait,
}

impl TryClone for Verdict {
    fn try_clone(&self) -> Result<Self, AllocError> {
        self.clone()
    }
}
