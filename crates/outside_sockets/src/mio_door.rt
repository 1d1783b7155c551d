//! A door to a listening socket.
ghost use Rattle.std.specs.Prelude.{◌≡◌, ◌≢◌, None};
ghost use Rattle.outside.specs.Cause.{HasCause};

use crate::ears::Ears;
use crate::mio_link::MioLink;
use crate::newcomer::{Newcomer, is_passing};
use crate::silent_ones::SilentOnes;
use outside::{Acceptor, Door};
use poa_base::{Session, WantMemory};
use std::alloc::Global;
use std::io;
use std::io::ErrorKind;
use std::net::TcpListener;
use std::sync::Arc;
use std::time::Duration;

// How many seconds a read of a link waits.
const PATIENCE: u64 = 1;

/// One of the doors to a listening socket, which share it: each gives a link at a time, with the ears that came
/// back with the last one. It tells no content, and never ends. Where nobody comes in the time of the socket it says
/// `Quiet`. Where the port couldn't be had, or a link is out, each `next` fails.
#[derive(Drop)]
pub struct MioDoor {
    listener: Option<Arc<TcpListener, Global>>,
    ears: Option<Ears>,
    silent_ones: Option<SilentOnes>,
    faults: u64,
    quiets: u64,
}

impl MioDoor {
    /// A door to this socket, or to a port that couldn't be had.
    pub fn new(listener: Option<Arc<TcpListener, Global>>, ears: Ears) -> Self {
        MioDoor {
            listener,
            ears: Some(ears),
            silent_ones: None,
            faults: 0,
            quiets: 0,
        }
    }

    /// The only door to this socket, which gives a link once its peer has said something. A link whose peer says nothing
    /// for half a minute, and is owed no answer line, fails where another waits who has.
    pub fn of_speakers(
        alloc: Global,
        listener: Arc<TcpListener, Global>,
        ears: Ears,
    ) -> Result<Self, WantMemory> {
        let silent_ones = SilentOnes::new(alloc, listener)?;
        Ok(MioDoor {
            listener: None,
            ears: Some(ears),
            silent_ones: Some(silent_ones),
            faults: 0,
            quiets: 0,
        })
    }

    // Who comes in next.
    fn newcomer(&mut self) -> io::Result<Newcomer>
        ensures faults { self.new.faults ≡ self.old.faults }
        ensures quiets { self.new.quiets ≡ self.old.quiets }
    {
        if let Some(silent_ones) = &mut self.silent_ones {
            return silent_ones.speaker();
        }
        match &self.listener {
            Some(listener) => Newcomer::accept(listener),
            None => Err(io::Error::from(ErrorKind::NotConnected)),
        }
    }

    // The link over the next connection, with the ears that are here.
    fn link(&mut self) -> io::Result<MioLink>
        ensures faults { self.new.faults ≡ self.old.faults }
        ensures quiets { self.new.quiets ≡ self.old.quiets }
    {
        let Newcomer { stream, peer } = self.newcomer()?;
        let Some(ears) = self.ears.take() else {
            return Err(io::Error::from(ErrorKind::ResourceBusy));
        };
        match ears.attach(&stream) {
            Ok(()) => {
                let patience = Duration::from_secs(PATIENCE);
                let silent_ones = self.silent_ones.take();
                Ok(MioLink::new(stream, peer, ears, patience, silent_ones))
            }
            Err(error) => {
                self.ears = Some(ears);
                Err(error)
            }
        }
    }
}

impl Acceptor for MioDoor {
    type Link = MioLink;

    ghost standing = { λ _. None };

    ghost faults = { λ d. d.faults };

    ghost quiets = { λ d. d.quiets };

    ghost ends = { λ _. 0 };

    fn next(&mut self) -> Door<MioLink>
        ensures failed { HasCause self.old.faults self.new.faults (result ≡ Door.Failed) }
        ensures counted { result ≢ Door.Failed → self.new.faults ≡ self.old.faults }
        ensures quiet { HasCause self.old.quiets self.new.quiets (result ≡ Door.Quiet) }
        ensures ended { HasCause 0 0 (result ≡ Door.End) }
        ensures endless { result ≢ Door.End }
    {
        match self.link() {
            Ok(link) => Door::Link(link),
            Err(error) if is_passing(error.kind()) => {
                self.quiets = self.quiets.saturating_add(1);
                Door::Quiet
            }
            Err(_) => {
                self.faults = self.faults.saturating_add(1);
                Door::Failed
            }
        }
    }

    fn give_back(&mut self, link: MioLink, _session: Session) {
        let (ears, silent_ones) = link.close();
        self.ears = Some(ears);
        self.silent_ones = silent_ones;
    }
}
