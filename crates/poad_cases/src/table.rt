//! The lines of a table, each read as it comes.
use crate::case::Case;
use crate::files::File;
use crate::words::{Messages, bytes_of, filling, put_octets, texts};
use anyhow::{Context, Result, bail};
use std::alloc::Global;
use std::collections::BTreeMap;
use text_words::loose_words;

/// A case that is to be run now.
#[derive(Drop)]
pub enum Ready {
    Command(Case),
    Server(Case),
}

/// The files and messages so far, and the case in work.
#[derive(Drop)]
pub struct Table {
    alloc: Global,
    files: Vec<File>,
    messages: Messages,
    case: Option<Case>,
}

impl Table {
    /// A table before its first line.
    pub fn new(alloc: Global) -> Self {
        Table {
            alloc,
            files: Vec::new(alloc),
            messages: BTreeMap::new(alloc),
            case: None,
        }
    }

    /// The files so far, the last one of a name counting.
    pub fn files(&self) -> &[File] {
        self.files.as_slice()
    }

    /// There is a file with this content, too.
    pub fn hold(&mut self, name: &str, content: Vec<u8>) -> Result<()> {
        self.files
            .push((String::from_str(self.alloc, name)?, content))?;
        Ok(())
    }

    /// Reads a line. Gives the case that is to be run now.
    pub fn line(&mut self, line: &[u8]) -> Result<Option<Ready>> {
        if let Some(content) = line.strip_prefix(b"  ".as_slice()) {
            self.fill_file(content)?;
            self.fill_file(b"\n")?;
            return Ok(None);
        }
        let words = loose_words(self.alloc, line)?;
        match words.as_slice() {
            [b"run"] => return Ok(Some(Ready::Command(self.end_case()?))),
            [b"serve"] => return Ok(Some(Ready::Server(self.end_case()?))),
            [b"file", names @ ..] => self.begin_file(names)?,
            [b"message", name, digits @ ..] => self.add_message(name, digits)?,
            [b"case", ..] => self.begin_case(line)?,
            [first, ..] if !first.starts_with(b"#") => self.ask(line, &words)?,
            _ => (),
        }
        Ok(None)
    }

    /// Does a line of the case in work, or fills the last file.
    fn ask(&mut self, line: &[u8], words: &[&[u8]]) -> Result<()> {
        match (&mut self.case, words) {
            (Some(case), _) => case.ask(&self.messages, line, words),
            (None, [b"fill", value, count]) => {
                self.fill_file(&filling(self.alloc, value, count)?)
            }
            (None, [b"bytes", rest @ ..]) => {
                let bytes = bytes_of(self.alloc, &self.messages, rest)?;
                self.fill_file(&bytes)
            }
            _ => bail!("no case yet"),
        }
    }

    fn end_case(&mut self) -> Result<Case> {
        self.case.take().context("no case yet")
    }

    fn begin_file(&mut self, names: &[&[u8]]) -> Result<()> {
        self.case = None;
        for name in texts(self.alloc, names)? {
            self.files.push((name, Vec::new(self.alloc)))?;
        }
        Ok(())
    }

    fn fill_file(&mut self, bytes: &[u8]) -> Result<()> {
        let (_, content) = self.files.last_mut().context("no file yet")?;
        content.extend_from_slice(bytes)?;
        Ok(())
    }

    fn add_message(&mut self, name: &[u8], digits: &[&[u8]]) -> Result<()> {
        let mut bytes = Vec::new(self.alloc);
        for word in digits {
            put_octets(self.alloc, &mut bytes, b"", word)?;
        }
        let name = Vec::from_slice(self.alloc, name)?;
        self.messages.insert(name, bytes)?;
        Ok(())
    }

    fn begin_case(&mut self, line: &[u8]) -> Result<()> {
        let title = Vec::from_slice(self.alloc, line)?;
        self.case = Some(Case::new(self.alloc, title));
        Ok(())
    }
}
