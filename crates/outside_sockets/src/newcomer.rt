//! Who came in at a port.
use crate::socket::prepare;
use std::io;
use std::io::ErrorKind;
use std::net::{SocketAddr, TcpListener, TcpStream};
use std::time::Duration;

// For how many milliseconds a newcomer's first byte is waited for.
const GREETING: u64 = 100;

/// A connection that came in, and whose it is. It is prepared, so its reads don't wait, and its small writes aren't delayed.
#[derive(Drop)]
pub(crate) struct Newcomer {
    pub stream: TcpStream,
    pub peer: SocketAddr,
}

impl Newcomer {
    /// The next who comes in. One that was reset before it came in is told as aborted.
    pub(crate) fn accept(listener: &TcpListener) -> io::Result<Self> {
        let newcomer = Newcomer::accept_waiting(listener)?;
        prepare(&newcomer.stream)?;
        Ok(newcomer)
    }

    /// The next who comes in, as soon as it has said something, and after a moment at most.
    pub(crate) fn accept_speaking(listener: &TcpListener) -> io::Result<Self> {
        let newcomer = Newcomer::accept_waiting(listener)?;
        let greeting = Duration::from_millis(GREETING);
        newcomer.stream.set_read_timeout(Some(greeting))?;
        let _ = newcomer.peek();
        prepare(&newcomer.stream)?;
        Ok(newcomer)
    }

    // The next who comes in, while its reads wait.
    fn accept_waiting(listener: &TcpListener) -> io::Result<Self> {
        let (stream, peer) = listener.accept()?;
        if stream.take_error()?.is_some() {
            return Err(io::Error::from(ErrorKind::ConnectionAborted));
        }
        stream.set_nodelay(true)?;
        Ok(Newcomer { stream, peer })
    }

    /// Whether it has said something, which nobody has read yet.
    pub(crate) fn has_spoken(&self) -> bool {
        matches!(self.peek(), Ok(1..))
    }

    /// Whether it went and never said anything.
    pub(crate) fn is_gone(&self) -> bool {
        match self.peek() {
            Ok(count) => count == 0,
            Err(error) => !is_passing(error.kind()),
        }
    }

    fn peek(&self) -> io::Result<usize> {
        self.stream.peek(&mut [0])
    }
}

/// An error after which the next try may well succeed: nobody came, nothing was said, or who came is gone.
pub(crate) fn is_passing(kind: ErrorKind) -> bool {
    matches!(
        kind,
        ErrorKind::WouldBlock | ErrorKind::Interrupted | ErrorKind::ConnectionAborted
    )
}
