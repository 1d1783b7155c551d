//! What ends the wait of a reader.
ghost use Rattle.std.specs.Prelude.{◌≡◌, true, false, IfOk};
ghost use Rattle.outside.specs.Alarm.{is_silent};

use mio::Waker;
use std::alloc::{AllocError, Global};
use std::sync::Arc;

/// Ends the read of a link that waits, or else the next one that would. A silent one ends none: it is of a
/// link whose reads never wait.
#[derive(Drop)]
pub struct Alarm {
    waker: Option<Arc<Waker, Global>>,
}

impl Alarm {
    /// The alarm of a reader that waits where this waker is heard.
    pub fn new(waker: Arc<Waker, Global>) -> Self
        ensures { is_silent result ≡ false }
    {
        Alarm { waker: Some(waker) }
    }

    /// An alarm that nobody hears.
    pub fn silent() -> Self
        ensures { is_silent result ≡ true }
    {
        Alarm { waker: None }
    }

    /// Whether nobody hears it.
    pub fn is_silent(&self) -> bool
        ensures { result ≡ is_silent self.now }
    {
        self.waker.is_none()
    }

    /// Ends the read that waits, or else the next that would. Where the system refuses that, the read goes on
    /// until its own time is over.
    pub fn ring(&self) {
        if let Some(waker) = &self.waker {
            let _ = waker.wake();
        }
    }

    /// The same alarm once more, for another who is to ring it.
    pub fn try_clone(&self) -> Result<Self, AllocError>
        ensures { IfOk result (λ copy. is_silent copy ≡ is_silent self.now) }
    {
        let Some(waker) = &self.waker else {
            return Ok(Alarm::silent());
        };
        Ok(Alarm::new(Arc::try_clone(waker)?))
    }
}
