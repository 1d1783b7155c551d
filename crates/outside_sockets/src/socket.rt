//! A connected socket, and the waiting for it.
ghost use Rattle.std.specs.Prelude.{◌≡◌, ◌<◌, ◌≤◌, length, IfSome};
ghost use Rattle.outside.specs.Reading.{IsWithin};

use crate::ears::{Ears, Heard};
use outside::Took;
use std::io;
use std::io::{ErrorKind, Read, Write};
use std::net::{Shutdown, TcpStream};
use std::time::Duration;

// How many seconds a write waits before it looks again.
const WRITE_PATIENCE: u64 = 1;

// For how many milliseconds a read waits in the system. Its alarm isn't heard meanwhile.
const MOMENT: u64 = 10;

// For so many such times a peer may take nothing, and for so many waits of reads say nothing while another waits.
const SILENT_WAITS: u32 = 30;

// How many pieces of input are thrown away at the end.
const LAST_READS: u32 = 16;

/// Makes a stream ready to be the stream of a socket: its reads and writes don't wait, or not for long once they are let.
pub(crate) fn prepare(stream: &TcpStream) -> io::Result<()> {
    stream.set_read_timeout(Some(Duration::from_millis(MOMENT)))?;
    stream.set_write_timeout(Some(Duration::from_secs(WRITE_PATIENCE)))?;
    stream.set_nonblocking(true)
}

/// A socket with what hears it. What was heard while it waited for something else is kept.
#[derive(Drop)]
pub(crate) struct Socket {
    stream: TcpStream,
    ears: Ears,
    /// How long a read waits.
    patience: Duration,
    /// Reads and writes wait in the system, a moment each: else they don't wait at all.
    is_waiting: bool,
    /// The last read found something, so the next input may well come in a moment.
    is_lively: bool,
    /// The last read found less than it asked for, and no input was heard since.
    is_drained: bool,
    /// The peer closed. Its close is heard only once, so nothing is waited for after it.
    is_closing: bool,
    /// The alarm was heard, and no read ended for it.
    is_rung: bool,
    /// So many waits of reads have heard nothing since anything was read or written.
    silent_waits: u32,
}

impl Socket {
    /// The socket of a stream that was prepared.
    pub(crate) fn new(stream: TcpStream, ears: Ears, patience: Duration) -> Self {
        Socket {
            stream,
            ears,
            patience,
            is_waiting: false,
            is_lively: true,
            is_drained: true,
            is_closing: false,
            is_rung: false,
            silent_waits: 0,
        }
    }

    pub(crate) fn ears(&self) -> &Ears {
        &self.ears
    }

    /// Whether nothing was read or written for half a minute of waiting.
    pub(crate) fn is_silent(&self) -> bool {
        self.silent_waits >= SILENT_WAITS
    }

    /// Reads what is there. Where nothing is, it waits for input, the alarm or its patience; but where no reply is owed, and
    /// the last read found something, a moment for input alone.
    pub(crate) fn receive(&mut self, buf: &mut [u8], is_owed: bool) -> Took
        requires { 0 < length buf.old }
        ensures { IsWithin result (length buf.old) }
    {
        self.let_wait(!is_owed);
        let is_soon = self.is_waiting && self.is_lively && !self.is_rung;
        if self.is_drained && !is_soon {
            if !self.is_rung && self.wait(self.patience) {
                self.silent_waits = self.silent_waits.saturating_add(1);
            }
            self.is_rung = false;
            if self.is_drained {
                return Took::Quiet;
            }
        }
        match self.stream.read(buf) {
            Ok(0) => Took::End,
            Ok(count) => {
                self.silent_waits = 0;
                self.is_lively = true;
                self.is_drained = count < buf.len() && !self.is_closing;
                Took::Got(count)
            }
            Err(error) => self.unread(error.kind()),
        }
    }

    // What an error of a read means.
    fn unread(&mut self, kind: ErrorKind) -> Took
        ensures { IsWithin result 0 }
    {
        match kind {
            ErrorKind::WouldBlock => {
                self.is_drained = true;
                self.is_lively = false;
                Took::Quiet
            }
            ErrorKind::Interrupted => Took::Quiet,
            _ => Took::Failed,
        }
    }

    /// Writes what there is room for, and answers how much. None where the connection is broken, or its peer takes
    /// nothing for half a minute.
    pub(crate) fn send(&mut self, piece: &[u8]) -> Option<usize>
        requires { 0 < length piece.now }
        ensures some { IfSome result (λ count. 0 < count) }
        ensures within { IfSome result (λ count. count ≤ length piece.now) }
    {
        let mut silent = 0u32;
        for _ in 0..u64::MAX {
            match self.stream.write(piece) {
                Ok(0) => return None,
                Ok(count) => {
                    self.silent_waits = 0;
                    return Some(count);
                }
                Err(error) if error.kind() == ErrorKind::WouldBlock => {
                    if self.waits_for_room() {
                        silent = silent.saturating_add(1);
                    }
                    if silent >= SILENT_WAITS {
                        return None;
                    }
                }
                Err(error) if error.kind() == ErrorKind::Interrupted => {}
                Err(_) => return None,
            }
        }
        None
    }

    // Lets reads and writes wait in the system, or not. Where that can't be changed, they go on as they did.
    fn let_wait(&mut self, is_waiting: bool) {
        if self.is_waiting != is_waiting && self.stream.set_nonblocking(!is_waiting).is_ok() {
            self.is_waiting = is_waiting;
        }
    }

    // Waits for room, where the write itself didn't. Answers whether nothing was heard.
    fn waits_for_room(&mut self) -> bool {
        self.is_waiting || self.wait(Duration::from_secs(WRITE_PATIENCE))
    }

    // Waits until something is heard, for so long at most, and keeps it. Answers whether nothing was.
    fn wait(&mut self, most: Duration) -> bool {
        let Ok(heard) = self.ears.hear(most) else {
            // What can't be heard a read will show.
            self.is_drained = false;
            return true;
        };
        self.keep(heard);
        heard.is_silence()
    }

    fn keep(&mut self, heard: Heard) {
        self.is_closing |= heard.closing;
        self.is_drained &= !heard.socket && !self.is_closing;
        self.is_rung |= heard.alarm;
    }

    /// Closes the connection, and gives the ears back. Input that nobody read is thrown away first, since the
    /// system would take back the last bytes written otherwise.
    pub(crate) fn close(mut self) -> Ears {
        let _ = self.stream.shutdown(Shutdown::Write);
        self.let_wait(false);
        let mut buf = [0; 4096];
        for _ in 0..LAST_READS {
            if !matches!(self.stream.read(&mut buf), Ok(1..)) {
                break;
            }
        }
        let Socket { stream, ears, .. } = self;
        ears.detach(&stream);
        ears
    }
}
