//! A door of which an operator is told.
ghost use Rattle.std.specs.Prelude.{◌≡◌, None};

use crate::lanes::Lanes;
use crate::visit::Visit;
use outside::{Acceptor, Door};
use outside_sockets::{MioDoor, MioLink, Traffic};
use poa_base::Session;
use std::alloc::Global;
use std::io::Eprint;
use std::sync::Arc;
use std::time::{Clock, Duration};

/// A door to a listening socket. It says on standard error when all lanes are taken, where it is of a lane, and writes a
/// line for each connection that is over, where that is asked for.
#[derive(Drop)]
pub(crate) struct WatchedDoor<R: Clock + Eprint + Drop> {
    rt: R,
    door: MioDoor,
    /// None at the door of the administrators.
    lanes: Option<Arc<Lanes<R>, Global>>,
    is_logged: bool,
    /// When the link that is out came, since 1970.
    came: Duration,
}

impl<R: Clock + Eprint + Drop> WatchedDoor<R> {
    /// That door, of a lane or of none.
    pub(crate) fn new(
        rt: R,
        door: MioDoor,
        lanes: Option<Arc<Lanes<R>, Global>>,
        is_logged: bool,
    ) -> Self {
        WatchedDoor {
            rt,
            door,
            lanes,
            is_logged,
            came: Duration::ZERO,
        }
    }

    // A link goes out.
    fn note_coming(&mut self)
        ensures { self.new.door ≡ self.old.door }
    {
        self.came = self.now();
        if let Some(lanes) = &self.lanes {
            lanes.take();
        }
    }

    // A link is over.
    fn note_going(&self, traffic: Traffic, session: Session) {
        if let Some(lanes) = &self.lanes {
            lanes.free();
        }
        if self.is_logged {
            let visit = Visit {
                traffic,
                session,
                came: self.came,
                went: self.now(),
            };
            let _ = eprintln!(self.rt; "poad: {visit}");
        }
    }

    // The time since 1970, as far as it is known.
    fn now(&self) -> Duration {
        self.rt.since_1970().unwrap_or(Duration::ZERO)
    }
}

impl<R: Clock + Eprint + Drop> Acceptor for WatchedDoor<R> {
    type Link = MioLink;

    ghost standing = { λ _. None };

    ghost faults = { λ d. ⟦<MioDoor as Acceptor>⟧.faults d.door };

    ghost quiets = { λ d. ⟦<MioDoor as Acceptor>⟧.quiets d.door };

    ghost ends = { λ d. ⟦<MioDoor as Acceptor>⟧.ends d.door };

    fn next(&mut self) -> Door<MioLink> {
        let came = self.door.next();
        if matches!(came, Door::Link(_)) {
            self.note_coming();
        }
        came
    }

    fn give_back(&mut self, link: MioLink, session: Session) {
        let traffic = link.traffic();
        self.door.give_back(link, session);
        self.note_going(traffic, session);
    }
}
