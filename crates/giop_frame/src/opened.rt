//! A message whose last part hasn't come yet.
ghost use Rattle.std.specs.Prelude.{◌≡◌, ◌+◌, ◌<◌, ◌≤◌, ◌^◌, length, IfOk, OnOk, OnErr};
ghost use Rattle.giop_frame.specs.Part.{is_little};
ghost use Rattle.giop_frame.specs.Open.{opened_by, joined};
ghost use Rattle.giop_frame.specs.Message.{IsMessage};

use crate::header::HEADER_AND_ID;
use crate::message::Message;
use poa_base::{Bytes, WantMemory};
use std::alloc::Global;
use std::marker::Model;

/// A message whose last part hasn't come yet.
#[derive(Drop)]
pub(crate) struct Opened {
    at: u64,
    bytes: Vec<u8>,
    taken: u64,
}

impl Model for Opened {
    ghost use Rattle.giop_frame.specs.Open.{Open};
    ghost use Rattle.giop_frame.specs.Message.{IsMessage};

    ghost Value = { Open };

    ghost view = { λ o. record { at = o.at; bytes = o.bytes.items; taken = o.taken } };

    ghost invariant = { λ o. IsMessage o.bytes.items };
}

impl Opened {
    /// The message that this first part opens at this place.
    pub(crate) fn new(alloc: Global, at: u64, part: &[u8]) -> Result<Self, WantMemory>
        requires { IsMessage part.now }
        ensures { IfOk result (λ o. o ≡ opened_by at part.now) }
    {
        let bytes = Vec::from_slice(alloc, part)?;
        Ok(Opened {
            at,
            bytes,
            taken: part.len() as u64,
        })
    }

    /// How many bytes are joined.
    pub(crate) fn len(&self) -> u64
        ensures { result ≡ length self.now.bytes }
    {
        self.bytes.len() as u64
    }

    /// Whether the first part is little-endian.
    #[tactic(auto, unfolding(crate::specs::Part::is_little))]
    pub(crate) fn is_little(&self) -> bool
        ensures { result ≡ is_little self.now.bytes }
    {
        self.bytes[6] & 1 == 1
    }

    /// The bytes of the stream that its parts take.
    pub(crate) fn taken(&self) -> u64
        ensures { result ≡ self.now.taken }
    {
        self.taken
    }

    /// Joins a Fragment.
    pub(crate) fn join(&mut self, part: &[u8]) -> Result<(), WantMemory>
        requires id { HEADER_AND_ID ≤ length part.now }
        requires room { self.old.taken + length part.now < 2 ^ 64 }
        ensures ok { OnOk result (self.new ≡ joined self.old part.now) }
        ensures refused { OnErr result (self.new ≡ self.old) }
    {
        self.bytes.extend_from_slice(&part[HEADER_AND_ID..])?;
        self.taken += part.len() as u64;
        Ok(())
    }

    /// The joined message.
    pub(crate) fn into_message(self) -> Message
        ensures { result ≡ record { at = self.at; bytes = self.bytes } }
    {
        let Opened {
            at,
            bytes,
            taken: _,
        } = self;
        Message::new(at, Bytes::from_vec(bytes))
    }
}
