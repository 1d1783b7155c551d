//! A link over a socket.
ghost use Rattle.std.specs.Prelude.{◌≡◌, None};

use crate::ears::Ears;
use crate::owed::Owed;
use crate::silent_ones::SilentOnes;
use crate::socket::Socket;
use crate::traffic::Traffic;
use outside::{Alarm, Link, Took, Wrote};
use poa_base::WantMemory;
use std::net::{SocketAddr, TcpStream};
use std::time::Duration;

/// A link over a connected socket. It tells no content. A read that finds nothing waits for input, its alarm or its
/// patience, and then says `Quiet`; where no reply is owed it waits a moment for input alone first. A peer that takes
/// nothing for half a minute is a fault of the write. Where the link knows who may wait for its end, a peer that keeps
/// one waiting by its silence is a fault of the read.
#[derive(Drop)]
pub struct MioLink {
    socket: Socket,
    silent_ones: Option<SilentOnes>,
    owed: Owed,
    traffic: Traffic,
    pub(crate) read_faults: u64,
    pub(crate) write_faults: u64,
    pub(crate) quiets: u64,
}

impl MioLink {
    pub(crate) fn new(
        stream: TcpStream,
        peer: SocketAddr,
        ears: Ears,
        patience: Duration,
        silent_ones: Option<SilentOnes>,
    ) -> Self {
        MioLink {
            socket: Socket::new(stream, ears, patience),
            silent_ones,
            owed: Owed::none(),
            traffic: Traffic::none(peer),
            read_faults: 0,
            write_faults: 0,
            quiets: 0,
        }
    }

    /// Whose it is, and how much passed.
    pub fn traffic(&self) -> Traffic {
        self.traffic
    }

    /// Closes the connection, and gives the ears back, and those who said nothing.
    pub(crate) fn close(self) -> (Ears, Option<SilentOnes>) {
        let MioLink {
            socket,
            silent_ones,
            ..
        } = self;
        (socket.close(), silent_ones)
    }

    // Keeps what an administrator is owed: of others nobody asks.
    fn note_heard(&mut self, piece: &[u8])
        ensures read_faults { self.new.read_faults ≡ self.old.read_faults }
        ensures write_faults { self.new.write_faults ≡ self.old.write_faults }
        ensures quiets { self.new.quiets ≡ self.old.quiets }
    {
        if self.silent_ones.is_some() {
            self.owed.heard(piece);
        }
    }

    // The same of what is written to him.
    fn note_said(&mut self, part: &[u8])
        ensures read_faults { self.new.read_faults ≡ self.old.read_faults }
        ensures write_faults { self.new.write_faults ≡ self.old.write_faults }
        ensures quiets { self.new.quiets ≡ self.old.quiets }
    {
        if self.silent_ones.is_some() {
            self.owed.said(part);
        }
    }

    // Whether its peer has nothing to say and nothing to wait for, while another waits.
    fn is_in_the_way(&mut self) -> bool
        ensures read_faults { self.new.read_faults ≡ self.old.read_faults }
        ensures write_faults { self.new.write_faults ≡ self.old.write_faults }
        ensures quiets { self.new.quiets ≡ self.old.quiets }
    {
        if !self.socket.is_silent() || self.owed.is_any() {
            return false;
        }
        match &mut self.silent_ones {
            Some(silent_ones) => silent_ones.has_speaker(),
            None => false,
        }
    }
}

impl Link for MioLink {
    ghost shown = { λ l. record {
      left = None;
      held = None;
      read_faults = l.read_faults;
      write_faults = l.write_faults;
      quiets = l.quiets;
    } };

    fn read(&mut self, buf: &mut [u8], is_owed: bool) -> Took {
        match self.socket.receive(buf, is_owed) {
            Took::Quiet => {
                if self.is_in_the_way() {
                    self.read_faults = self.read_faults.saturating_add(1);
                    return Took::Failed;
                }
                self.quiets = self.quiets.saturating_add(1);
                Took::Quiet
            }
            Took::Failed => {
                self.read_faults = self.read_faults.saturating_add(1);
                Took::Failed
            }
            Took::End => Took::End,
            Took::Got(count) => {
                let piece = buf.get(..count).unwrap_or(&[]);
                self.note_heard(piece);
                self.traffic.count_read(piece);
                Took::Got(count)
            }
        }
    }

    fn write(&mut self, piece: &[u8]) -> Wrote {
        match self.socket.send(piece) {
            Some(count) => {
                let part = piece.get(..count).unwrap_or(&[]);
                self.note_said(part);
                self.traffic.count_written(part);
                Wrote::Wrote(count)
            }
            None => {
                self.write_faults = self.write_faults.saturating_add(1);
                Wrote::Failed
            }
        }
    }

    fn alarm(&self) -> Result<Alarm, WantMemory> {
        self.socket.ears().alarm()
    }
}
