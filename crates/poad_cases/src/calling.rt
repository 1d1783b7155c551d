//! `call` is done over links in memory.
use crate::case::Case;
use crate::host::host_of;
use crate::memory_connector::MemConnector;
use crate::report::Report;
use anyhow::Result;
use poad_call::run_call;
use poad_files::Status;
use std::alloc::Global;

/// What `call` wrote and how it ended, and the connector with the links that it used.
#[derive(Drop)]
pub struct Called {
    pub status: Status,
    pub written: Vec<u8>,
    pub connector: MemConnector,
}

/// Does the call of a case.
pub fn call(alloc: Global, case: &Case) -> Result<Called> {
    let mut links = Vec::new(alloc);
    for dial in &case.dials {
        links.push(dial.next_link()?)?;
    }
    let mut connector = MemConnector::new(alloc, links)?;
    let mut host = host_of(alloc, case, &[])?;
    let status = run_call(alloc, &case.words, &mut host, &mut connector);
    let written = Vec::from_slice(alloc, host.sink.held())?;
    Ok(Called {
        status,
        written,
        connector,
    })
}

impl Report {
    /// Prints what came of a call: each link that was opened and what it took, how many weren't, what was printed, and
    /// the status.
    pub fn put_call(&mut self, case: &Case, called: &Called) -> Result<()> {
        self.put_line(&case.title)?;
        let connector = &called.connector;
        for (opening, link) in connector.opened().iter().zip(connector.closed().iter()) {
            self.put(b"link ")?;
            self.put(opening.endpoint.host.as_slice())?;
            let port = format!(in self.alloc; " {}", opening.endpoint.port)?;
            self.put_line(port.as_bytes())?;
            self.put_messages(link.held())?;
        }
        let left = case.dials.len().saturating_sub(connector.closed().len());
        if left > 0 {
            let line = format!(in self.alloc; "left {left}")?;
            self.put_line(line.as_bytes())?;
        }
        self.put(&called.written)?;
        self.put_status(&called.status)
    }
}
