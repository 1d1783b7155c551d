//! What is printed of the bytes that were written to links.
use crate::memory_door::MemDoor;
use crate::report::Report;
use anyhow::Result;
use giop_frame::{Next, frame};
use poad_cmd::Doors;
use std::alloc::Global;
use text_words::{parts, put_octets};

/// The largest size that a message has, without its header.
const LARGEST: u32 = 1_048_576;

/// How many bytes are looked at, at most.
const MOST: usize = 1 << 40;

impl Report {
    /// Prints messages.
    pub fn put_messages(&mut self, bytes: &[u8]) -> Result<()> {
        let mut lines = Vec::new(self.alloc);
        add_messages(self.alloc, &mut lines, bytes)?;
        self.put_lines(&lines)
    }

    /// Prints what was written to all lanes, in the order of the bytes.
    pub fn put_together(&mut self, doors: &Doors<MemDoor>) -> Result<()> {
        let mut lines = Vec::new(self.alloc);
        for lane in &doors.lanes {
            for (link, _) in lane.returned() {
                add_messages(self.alloc, &mut lines, link.held())?;
            }
        }
        lines.sort()?;
        self.put_lines(&lines)
    }

    /// Prints lines; of equal ones in succession one, and how many there are.
    fn put_lines(&mut self, lines: &[Vec<u8>]) -> Result<()> {
        let mut count: u64 = 0;
        for (place, line) in lines.iter().enumerate() {
            count = count.saturating_add(1);
            if lines.get(place.saturating_add(1)) == Some(line) {
                continue;
            }
            self.put(line)?;
            if count > 1 {
                let times = format!(in self.alloc; " times {count}")?;
                self.put(times.as_bytes())?;
            }
            self.put(b"\n")?;
            count = 0;
        }
        Ok(())
    }

    /// Prints the lines that answer an administrator.
    pub fn put_answers(&mut self, bytes: &[u8]) -> Result<()> {
        let lines = parts(self.alloc, bytes, b'\n')?;
        let Some((rest, whole)) = lines.as_slice().split_last() else {
            return Ok(());
        };
        for line in whole {
            self.put(b"answer ")?;
            self.put_line(line)?;
        }
        if !rest.is_empty() {
            self.put_line(b"and no whole line")?;
        }
        Ok(())
    }
}

/// Adds a line for each message of these bytes, in hexadecimal.
fn add_messages(alloc: Global, lines: &mut Vec<Vec<u8>>, bytes: &[u8]) -> Result<()> {
    let frames = frame(alloc, LARGEST, &[&bytes[..bytes.len().min(MOST)]])?;
    for message in &frames.messages {
        add_message(alloc, lines, message.bytes())?;
    }
    if !matches!(frames.last, Next::NeedMore { have: 0 }) {
        lines.push(Vec::from_slice(alloc, b"and no whole message")?)?;
    }
    Ok(())
}

/// Adds the line of a message.
fn add_message(alloc: Global, lines: &mut Vec<Vec<u8>>, message: &[u8]) -> Result<()> {
    let mut line = Vec::from_slice(alloc, b"message")?;
    put_octets(&mut line, b"", message)?;
    lines.push(line)?;
    Ok(())
}
