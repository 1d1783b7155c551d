//! A wait for events.
use mio::{Events, Poll, Registry};
use std::io;
use std::time::Duration;

/// What waits for the events of a poll.
#[derive(Drop)]
pub(crate) struct Waiting {
    poll: Poll,
    events: Events,
}

impl Waiting {
    /// Nothing is waited for yet.
    pub(crate) fn new(rt: HostRuntime) -> io::Result<Self> {
        let poll = Poll::new(&rt)?;
        let events = Events::with_capacity(rt.alloc(), 4)?;
        Ok(Waiting { poll, events })
    }

    /// Where what is waited for enters itself.
    pub(crate) fn registry(&self) -> &Registry {
        self.poll.registry()
    }

    /// Waits so long at most. Says whether an event came.
    pub(crate) fn wait(&mut self, most: Duration) -> io::Result<bool> {
        self.poll.poll(&mut self.events, Some(most))?;
        Ok(!self.events.is_empty())
    }
}
