//! What a socket's user waits with.
use mio::unix::SourceFd;
use mio::{Events, Interest, Poll, Token, Waker};
use outside::Alarm;
use poa_base::WantMemory;
use std::alloc::Global;
use std::io;
use std::net::{Net, TcpStream};
use std::os::fd::AsRawFd;
use std::sync::Arc;
use std::time::Duration;

const SOCKET: Token = Token(0);

const ALARM: Token = Token(1);

// A socket and an alarm have no more events at once.
const MOST_EVENTS: usize = 4;

/// What is heard of one socket at a time, and of an alarm. A lane has it once, and hands it from link to link.
#[derive(Drop)]
pub struct Ears {
    poll: Poll,
    events: Events<Global>,
    waker: Arc<Waker, Global>,
}

/// What was heard.
#[derive(Clone, Copy, Drop)]
pub(crate) struct Heard {
    /// The socket has input, or room.
    pub socket: bool,
    /// Nothing more comes from the peer.
    pub closing: bool,
    pub alarm: bool,
}

impl Ears {
    /// Ears that hear no socket yet.
    pub fn new(alloc: Global, net: &impl Net) -> io::Result<Self> {
        let poll = Poll::new(net)?;
        let events = Events::with_capacity(alloc, MOST_EVENTS)?;
        let waker = Waker::new(poll.registry(), ALARM)?;
        Ok(Ears {
            poll,
            events,
            waker: Arc::new(alloc, waker)?,
        })
    }

    /// Hears this socket from now on.
    pub(crate) fn attach(&self, stream: &TcpStream) -> io::Result<()> {
        let both = Interest::READABLE | Interest::WRITABLE;
        let descriptor = stream.as_raw_fd();
        let mut source = SourceFd(&descriptor);
        self.poll.registry().register(&mut source, SOCKET, both)
    }

    /// Hears this socket no longer.
    pub(crate) fn detach(&self, stream: &TcpStream) {
        let descriptor = stream.as_raw_fd();
        let mut source = SourceFd(&descriptor);
        let _ = self.poll.registry().deregister(&mut source);
    }

    /// The alarm that is heard.
    pub(crate) fn alarm(&self) -> Result<Alarm, WantMemory> {
        Ok(Alarm::new(Arc::try_clone(&self.waker)?))
    }

    /// Waits until something is heard, for so long at most.
    pub(crate) fn hear(&mut self, most: Duration) -> io::Result<Heard> {
        self.poll.poll(&mut self.events, Some(most))?;
        let mut heard = Heard {
            socket: false,
            closing: false,
            alarm: false,
        };
        for event in &self.events {
            if event.token() == ALARM {
                heard.alarm = true;
            } else {
                heard.socket = true;
                heard.closing |= event.is_read_closed() || event.is_error();
            }
        }
        Ok(heard)
    }
}

impl Heard {
    /// Nothing was heard for the whole time.
    pub(crate) fn is_silence(self) -> bool {
        !self.socket && !self.alarm
    }
}
