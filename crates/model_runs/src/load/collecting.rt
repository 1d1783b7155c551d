//! Which replies connections are given.
//!
//! `slow_next_reply` looks anew each time for the entries that decided a connection's arrivals, in some hundred million
//! steps at this length. So each such entry is found here when it is made, by `decided`, of which `slow_next_reply` is
//! made, and that one is asked for the first reply of each connection alone.
use crate::fault::Fault;
use crate::load::due::Due;
use crate::load::play::{CONNECTIONS, Play};
use poa_base::Entry;
use poa_history::calls::conn_of;
use poa_model::{decided, slow_next_reply};
use std::mem;

impl Play {
    /// The replies to the arrivals that the newest entry decided become due.
    pub fn note_decided(&mut self) -> Result<(), Fault> {
        let undecided = mem::replace(&mut self.undecided, Vec::new(self.alloc));
        for arrival in &undecided {
            let arrival = *arrival;
            if decided(&self.given(), &self.history, arrival)? {
                let conn = conn_of(&self.history, arrival).ok_or(Fault::Load)?;
                self.due.push(Due { conn, arrival })?;
            } else {
                self.undecided.push(arrival)?;
            }
        }
        Ok(())
    }

    /// Each connection is given the replies that are due to it, in the order in which they were decided.
    pub fn collect_all(&mut self) -> Result<(), Fault> {
        let due = mem::replace(&mut self.due, Vec::new(self.alloc));
        for conn in 0..CONNECTIONS {
            self.check_first(conn, &due)?;
            self.collect(conn, &due)?;
        }
        Ok(())
    }

    /// Refuses a first reply to a connection that isn't the one that `slow_next_reply` gives it.
    fn check_first(&self, conn: u32, due: &[Due]) -> Result<(), Fault> {
        let Some(first) = due.iter().find(|due| due.conn == conn) else {
            return Ok(());
        };
        let next = slow_next_reply(&self.given(), &self.history, conn)?;
        if next == Some(first.arrival) {
            Ok(())
        } else {
            Err(Fault::Load)
        }
    }

    /// The connection is given the replies that are due to it.
    fn collect(&mut self, conn: u32, due: &[Due]) -> Result<(), Fault> {
        for one in due {
            if one.conn == conn {
                let arrival = one.arrival;
                self.history.push(Entry::Collect { conn, arrival })?;
            }
        }
        Ok(())
    }
}
