//! What is printed of the cases.
use crate::case::Case;
use crate::serving::Ran;
use anyhow::Result;
use outside::MemFiles;
use poad_files::Status;
use std::alloc::Global;

/// What is printed of the cases so far.
#[derive(Drop)]
pub struct Report {
    pub alloc: Global,
    pub text: Vec<u8>,
}

impl Report {
    /// Nothing yet.
    pub fn new(alloc: Global) -> Self {
        Report {
            alloc,
            text: Vec::new(alloc),
        }
    }

    /// Puts bytes behind the others.
    pub fn put(&mut self, bytes: &[u8]) -> Result<()> {
        self.text.extend_from_slice(bytes)?;
        Ok(())
    }

    /// Puts a line behind the others.
    pub fn put_line(&mut self, line: &[u8]) -> Result<()> {
        self.put(line)?;
        self.put(b"\n")
    }

    /// Prints what came of a run of the server: its doors, its journal, the files that are asked for, and its status.
    pub fn put_server(&mut self, case: &Case, (served, files): &Ran) -> Result<()> {
        self.put_line(&case.title)?;
        self.put_doors(case, &served.doors)?;
        match &served.core {
            Some(core) => self.put_journal(case, core, &served.doors, files)?,
            None => self.put_line(b"not begun")?,
        }
        self.put_contents(case, files)?;
        self.put_status(&served.status)
    }

    /// Prints what the files hold under the names that a case asks.
    fn put_contents(&mut self, case: &Case, files: &MemFiles) -> Result<()> {
        for name in &case.contents {
            let (said, content) = match files.content(name) {
                Some(content) => ("content", content),
                None => ("no", b"".as_slice()),
            };
            let line = format!(in self.alloc; "{said} {name}")?;
            self.put_line(line.as_bytes())?;
            self.put(content)?;
        }
        Ok(())
    }

    /// Prints the number of a status, and its line where the program writes that.
    pub fn put_status(&mut self, status: &Status) -> Result<()> {
        let number = status.number();
        let line = match status {
            Status::Ok => format!(in self.alloc; "status {number}\n")?,
            _ => format!(in self.alloc; "status {number} {status}\n")?,
        };
        self.put_line(line.as_bytes())
    }
}
