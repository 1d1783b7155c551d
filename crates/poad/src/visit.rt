//! What is told of a connection when it is over.
use jiff::Timestamp;
use outside_sockets::Traffic;
use poa_base::{Session, SessionEnd};
use std::fmt;
use std::time::Duration;

/// A connection that is over. The times count from 1970.
#[derive(Drop)]
pub(crate) struct Visit {
    pub traffic: Traffic,
    pub session: Session,
    pub came: Duration,
    pub went: Duration,
}

impl fmt::Display for Visit {
    fn fmt<W: fmt::Write>(&self, f: &mut fmt::Formatter<W>) -> fmt::Result {
        match self.session.conn {
            Some(conn) => write!(f, "connection {conn}")?,
            None => f.write_str("no connection")?,
        }
        write!(f, " of {}, ", self.traffic.peer)?;
        write_time(f, self.came)?;
        f.write_str(" to ")?;
        write_time(f, self.went)?;
        write!(
            f,
            ", {} bytes read, {} written: ",
            self.traffic.read, self.traffic.written
        )?;
        write_end(f, self.session.end)
    }
}

// A time to the second, as 2026-11-30T21:24:00Z.
fn write_time<W: fmt::Write>(f: &mut fmt::Formatter<W>, since: Duration) -> fmt::Result {
    let seconds = i64::try_from(since.as_secs()).unwrap_or(i64::MAX);
    match Timestamp::from_second(seconds) {
        Ok(time) => write!(f, "{time}"),
        Err(_) => f.write_str("-"),
    }
}

fn write_end<W: fmt::Write>(f: &mut fmt::Formatter<W>, end: SessionEnd) -> fmt::Result {
    match end {
        SessionEnd::Ended => f.write_str("ended"),
        SessionEnd::Shut => f.write_str("shut"),
        SessionEnd::ReadFault => f.write_str("read fault"),
        SessionEnd::WriteFault => f.write_str("write fault"),
        SessionEnd::Malformed { at } => write!(f, "malformed {at}"),
        SessionEnd::Truncated { have } => write!(f, "truncated {have}"),
        SessionEnd::InputLimit { taken } => write!(f, "input limit {taken}"),
        SessionEnd::Limit { arrivals, bytes } => write!(f, "limit {arrivals} {bytes}"),
        SessionEnd::Abandoned { worker } => write!(f, "abandoned {worker}"),
        SessionEnd::WantMemory => f.write_str("want memory"),
    }
}
