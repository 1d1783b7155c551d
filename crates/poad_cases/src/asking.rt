//! The lines of a case.
use crate::case::Case;
use crate::dial_case::DialCase;
use crate::door_case::DoorCase;
use crate::link_case::LinkCase;
use crate::words::{Messages, bytes_of, filling, number, numbers, port_of, texts};
use anyhow::{Result, bail};
use poa_base::{Bytes, Endpoint};

impl Case {
    /// Does a line of the case, which has these words.
    pub fn ask(&mut self, messages: &Messages, line: &[u8], words: &[&[u8]]) -> Result<()> {
        match words {
            [b"words", rest @ ..] => self.words = texts(self.alloc, rest)?,
            [b"lane"] => self.begin_lane()?,
            [b"administrators"] => self.is_at_administrators = true,
            [b"link"] => self.begin_link()?,
            [b"dial", host, port] => self.begin_dial(host, port)?,
            [b"fails", kind, calls @ ..] => self.add_failures(kind, calls)?,
            [b"holds", length] => self.held_for = Some(number(length)? as usize),
            [b"takes", count] => self.limit = Some(number(count)?),
            [b"keep", name] => self.kept = texts(self.alloc, &[*name])?.pop(),
            [
                b"together" | b"store" | b"content" | b"order" | b"entries",
                ..
            ] => { self.ask_printed(words)? }
            _ => self.link()?.ask(messages, line, words)?,
        }
        Ok(())
    }

    /// Does a line that says what is printed.
    fn ask_printed(&mut self, words: &[&[u8]]) -> Result<()> {
        match words {
            [b"together"] => self.is_together = true,
            [b"store"] => self.has_store = true,
            [b"content", names @ ..] => self.contents = texts(self.alloc, names)?,
            [b"order", kinds @ ..] => self.ordered = texts(self.alloc, kinds)?,
            [b"entries", kinds @ ..] => self.counted = Some(texts(self.alloc, kinds)?),
            _ => bail!("no such line"),
        }
        Ok(())
    }

    /// Begins the next lane.
    fn begin_lane(&mut self) -> Result<()> {
        self.is_at_administrators = false;
        self.lanes.push(DoorCase::new(self.alloc))?;
        Ok(())
    }

    /// Begins a link at the door in work.
    fn begin_link(&mut self) -> Result<()> {
        let alloc = self.alloc;
        self.door()?.links.push(LinkCase::new(alloc))?;
        Ok(())
    }

    /// Begins a link that is opened by a dial to this host and port.
    fn begin_dial(&mut self, host: &[u8], port: &[u8]) -> Result<()> {
        let host = Vec::from_slice(self.alloc, host)?;
        let port = port_of(port)?;
        self.dials.push(DialCase {
            endpoint: Endpoint {
                host: Bytes::from_vec(host),
                port,
            },
            link: LinkCase::new(self.alloc),
        })?;
        Ok(())
    }

    /// Adds calls of this kind that fail, or reads that find nothing for now.
    fn add_failures(&mut self, kind: &[u8], calls: &[&[u8]]) -> Result<()> {
        let failing = numbers(self.alloc, calls)?;
        self.failing(kind)?.extend_from_slice(&failing)?;
        Ok(())
    }

    /// The calls of this kind that fail.
    fn failing(&mut self, kind: &[u8]) -> Result<&mut Vec<u64>> {
        Ok(match kind {
            b"read" => &mut self.link()?.failing_reads,
            b"write" => &mut self.link()?.failing_writes,
            b"quiet" => &mut self.link()?.quiet_reads,
            b"next" => &mut self.door()?.failing,
            b"take" => &mut self.failing_takes,
            b"put" => &mut self.failing_puts,
            b"start" => &mut self.failing_starts,
            _ => bail!("no such call"),
        })
    }
}

impl LinkCase {
    /// Does a line that speaks of the link.
    fn ask(&mut self, messages: &Messages, line: &[u8], words: &[&[u8]]) -> Result<()> {
        match words {
            [b"send", rest @ ..] => self.send_words(messages, rest, 1),
            [b"times", count, rest @ ..] => self.send_words(messages, rest, number(count)?),
            [b"line", ..] => self.send_line(line),
            [b"fill", value, count] => self.send_filling(value, count),
            [b"piece", sizes @ ..] => self.add_pieces(sizes),
            [b"due", rest @ ..] => self.add_due(messages, rest),
            [b"loose"] => {
                self.is_loose = true;
                Ok(())
            }
            _ => bail!("no such line"),
        }
    }

    /// Its peer sends the bytes that these words say, so many times.
    fn send_words(&mut self, messages: &Messages, words: &[&[u8]], count: u64) -> Result<()> {
        let bytes = bytes_of(self.alloc, messages, words)?;
        for _ in 0..count {
            self.send(&bytes)?;
        }
        Ok(())
    }

    /// Its peer sends what stands behind the first word of a line, and LF.
    fn send_line(&mut self, line: &[u8]) -> Result<()> {
        self.send(line.strip_prefix(b"line ".as_slice()).unwrap_or(&[]))?;
        self.send(b"\n")
    }

    /// Its peer sends so many bytes of one value.
    fn send_filling(&mut self, value: &[u8], count: &[u8]) -> Result<()> {
        let bytes = filling(self.alloc, value, count)?;
        self.send(&bytes)
    }

    /// The next reads give so many bytes at most.
    fn add_pieces(&mut self, sizes: &[&[u8]]) -> Result<()> {
        for size in sizes {
            self.pieces.push(number(size)? as usize)?;
        }
        Ok(())
    }

    /// The bytes that these words say may be written, too.
    fn add_due(&mut self, messages: &Messages, words: &[&[u8]]) -> Result<()> {
        let bytes = bytes_of(self.alloc, messages, words)?;
        self.due.push(bytes)?;
        Ok(())
    }
}
