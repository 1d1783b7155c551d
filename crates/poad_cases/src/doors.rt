//! What is printed of the doors.
use crate::case::Case;
use crate::door_case::DoorCase;
use crate::link_case::LinkCase;
use crate::memory_door::MemDoor;
use crate::memory_link::MemLink;
use crate::report::Report;
use anyhow::Result;
use poa_base::Session;
use poad_cmd::Doors;
use session_laws::Peer;

impl Report {
    /// Prints the lanes of a case, and the administrators' door where anybody was to come in there.
    pub fn put_doors(&mut self, case: &Case, doors: &Doors<MemDoor>) -> Result<()> {
        let peer = if case.is_together {
            None
        } else {
            Some(Peer::Client)
        };
        for (place, asked) in case.lanes.iter().enumerate() {
            let title = format!(in self.alloc; "lane {}", place.saturating_add(1))?;
            self.put_line(title.as_bytes())?;
            self.put_door(asked, doors.lanes.get(place), peer)?;
        }
        if case.is_together {
            self.put_together(doors)?;
        }
        if !case.administrators.links.is_empty() {
            self.put_line(b"administrators")?;
            self.put_door(
                &case.administrators,
                Some(&doors.admin),
                Some(Peer::Administrator),
            )?;
        }
        Ok(())
    }

    /// Prints each link that was given back at a door, and how many weren't. What was written isn't printed where no peer
    /// is given.
    fn put_door(
        &mut self,
        asked: &DoorCase,
        door: Option<&MemDoor>,
        peer: Option<Peer>,
    ) -> Result<()> {
        let returned = match door {
            Some(door) => door.returned(),
            None => &[],
        };
        for (link, (given, session)) in asked.links.iter().zip(returned.iter()) {
            self.put_session(link, session)?;
            if let Some(peer) = peer {
                self.put_written(link, session, given, peer)?;
            }
        }
        let left = asked.links.len().saturating_sub(returned.len());
        if left > 0 {
            let line = format!(in self.alloc; "left {left}")?;
            self.put_line(line.as_bytes())?;
        }
        Ok(())
    }

    /// Prints whether a session had a connection, and how it ended, where that is determined.
    fn put_session(&mut self, link: &LinkCase, session: &Session) -> Result<()> {
        let entered = match session.conn {
            Some(_) => "connection",
            None => "none",
        };
        let line = if link.is_loose {
            format!(in self.alloc; "link {entered}")?
        } else {
            format!(in self.alloc; "link {entered} {:?}", session.end)?
        };
        self.put_line(line.as_bytes())
    }

    /// Prints what was written to a link, or that it is due.
    fn put_written(
        &mut self,
        link: &LinkCase,
        session: &Session,
        given: &MemLink,
        peer: Peer,
    ) -> Result<()> {
        if link.is_due(given.held(), session.end) {
            return self.put_line(b"as due");
        }
        match peer {
            Peer::Client => self.put_messages(given.held()),
            Peer::Administrator => self.put_answers(given.held()),
        }
    }
}
