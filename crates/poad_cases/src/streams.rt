//! What is printed of a command.
ghost use Rattle.std.specs.Prelude.{◌≤◌, length};

use crate::case::Case;
use crate::command::Done;
use crate::report::Report;
use anyhow::Result;
use text_words::put_octets;

/// How long a header is (CORBA 3.3 Part 2, 9.4.1). Its last four bytes are the size of what follows.
const HEADER: usize = 12;

impl Report {
    /// Prints what came of a command: what it wrote, of `answer` and `names` message by message, and its status.
    pub fn put_command(&mut self, case: &Case, done: &Done) -> Result<()> {
        self.put_line(&case.title)?;
        if case.is_of("answer") || case.is_of("names") {
            self.put_each(&done.written)?;
        } else {
            self.put(&done.written)?;
        }
        self.put_status(&done.status)
    }

    /// Prints how a command ended of which something is kept.
    pub fn put_kept(&mut self, case: &Case, done: &Done) -> Result<()> {
        self.put_line(&case.title)?;
        self.put_status(&done.status)
    }

    /// Prints the messages of these bytes, a line each, and what is left as one.
    fn put_each(&mut self, bytes: &[u8]) -> Result<()> {
        let mut rest = bytes;
        for _ in 0..bytes.len() {
            if rest.is_empty() {
                break;
            }
            let (message, behind) = rest.split_at(message_length(rest));
            self.put(b"message")?;
            put_octets(&mut self.text, b"", message)?;
            self.put(b"\n")?;
            rest = behind;
        }
        Ok(())
    }
}

/// How many of these bytes are the first message; all where they are no whole one.
fn message_length(bytes: &[u8]) -> usize
    ensures { result ≤ length bytes.now }
{
    if bytes.len() < HEADER {
        return bytes.len();
    }
    let size = [bytes[8], bytes[9], bytes[10], bytes[11]];
    let body = if bytes[6] % 2 == 1 {
        u32::from_le_bytes(size)
    } else {
        u32::from_be_bytes(size)
    };
    (body as usize).saturating_add(HEADER).min(bytes.len())
}
