//! The messages whose last parts haven't come yet.
ghost use Rattle.std.specs.Prelude.{◌≡◌, ◌+◌, ◌<◌, ◌≤◌, ◌^◌, [], None, length, option_copied, option_map, IfOk, IfSome, IsSome, OnOk, OnErr};
ghost use Rattle.std.specs.Ordering.{nat_cmp};
ghost use Rattle.std.specs.BTreeMap.{insert_entry};
ghost use Rattle.std.specs.Map.{set_value, remove_entry};
ghost use Rattle.giop_frame.specs.Open.{at_id, find_open, opened_by, joined, open_bytes, taken_bytes, nothing_open};
ghost use Rattle.giop_frame.specs.Message.{IsMessage};
ghost use Rattle.giop_frame.specs.Stream.{closed_by};

use crate::header::HEADER_AND_ID;
use crate::message::Message;
use crate::opened::Opened;
use poa_base::WantMemory;
use std::alloc::Global;
use std::collections::BTreeMap;
use std::marker::Model;

/// The messages whose last parts haven't come yet, by their request ids.
///
/// The two sums are kept beside the map, since each new part is held against them.
#[derive(Drop)]
pub(crate) struct OpenMessages {
    alloc: Global,
    by_id: BTreeMap<u32, Opened>,
    bytes: u64,
    taken: u64,
}

impl Model for OpenMessages {
    ghost use Rattle.std.specs.Prelude.{◌≡◌};
    ghost use Rattle.giop_frame.specs.Open.{Opens, open_bytes, taken_bytes};

    ghost Value = { Opens };

    ghost view = { λ m. m.by_id.entries };

    ghost invariant = { λ m. (m.bytes ≡ open_bytes m.by_id.entries) × (m.taken ≡ taken_bytes m.by_id.entries) };
}

impl OpenMessages {
    /// Nothing is open.
    pub(crate) fn new(alloc: Global) -> Self
        ensures { result ≡ [] }
    {
        OpenMessages {
            alloc,
            by_id: BTreeMap::new(alloc),
            bytes: 0,
            taken: 0,
        }
    }

    /// Whether nothing is open.
    pub(crate) fn is_empty(&self) -> bool
        ensures { result ≡ nothing_open self.now }
    {
        self.by_id.len() == 0
    }

    /// The bytes of all open messages together, as far as they are joined.
    pub(crate) fn bytes(&self) -> u64
        ensures { result ≡ open_bytes self.now }
    {
        self.bytes
    }

    /// The bytes of the stream that their parts take.
    pub(crate) fn taken(&self) -> u64
        ensures { result ≡ taken_bytes self.now }
    {
        self.taken
    }

    /// The open message of an id.
    pub(crate) fn find(&self, id: u32) -> Option<&Opened>
        ensures { option_copied result ≡ find_open id self.now }
    {
        self.by_id.get(&id)
    }

    /// Opens the message of a first part.
    pub(crate) fn open(&mut self, id: u32, at: u64, part: &[u8]) -> Result<(), WantMemory>
        requires message { IsMessage part.now }
        requires absent { find_open id self.old ≡ None }
        requires bytes_fit { open_bytes self.old + length part.now < 2 ^ 64 }
        requires taken_fit { taken_bytes self.old + length part.now < 2 ^ 64 }
        ensures ok { OnOk result (self.new ≡ insert_entry nat_cmp self.old id (opened_by at part.now)) }
        ensures refused { OnErr result (self.new ≡ self.old) }
    {
        let opened = Opened::new(self.alloc, at, part)?;
        self.by_id.insert(id, opened)?;
        self.bytes += part.len() as u64;
        self.taken += part.len() as u64;
        Ok(())
    }

    /// Joins a Fragment to the message of its id.
    pub(crate) fn join(&mut self, id: u32, part: &[u8]) -> Result<(), WantMemory>
        requires id { HEADER_AND_ID ≤ length part.now }
        requires found { IsSome (find_open id self.old) }
        requires bytes_fit { open_bytes self.old + length part.now < 2 ^ 64 }
        requires taken_fit { taken_bytes self.old + length part.now < 2 ^ 64 }
        ensures ok { OnOk result (IfSome (find_open id self.old) (λ o. self.new ≡ set_value (at_id id) self.old (joined o part.now))) }
        ensures refused { OnErr result (self.new ≡ self.old) }
    {
        let Some(opened) = self.by_id.get_mut(&id) else {
            return Ok(());
        };
        opened.join(part)?;
        self.bytes += (part.len() - HEADER_AND_ID) as u64;
        self.taken += part.len() as u64;
        Ok(())
    }

    /// Joins the last Fragment to the message of its id, and takes the joined one out.
    pub(crate) fn close(&mut self, id: u32, part: &[u8]) -> Result<Option<Message>, WantMemory>
        requires id { HEADER_AND_ID ≤ length part.now }
        requires found { IsSome (find_open id self.old) }
        requires bytes_fit { open_bytes self.old + length part.now < 2 ^ 64 }
        requires taken_fit { taken_bytes self.old + length part.now < 2 ^ 64 }
        ensures message { IfOk result (λ m. m ≡ option_map (λ o. closed_by o part.now) (find_open id self.old)) }
        ensures closed { OnOk result (self.new ≡ remove_entry (at_id id) self.old) }
        ensures refused { OnErr result (self.new ≡ self.old) }
    {
        self.join(id, part)?;
        match self.take(id) {
            Some(opened) => Ok(Some(opened.into_message())),
            None => Ok(None),
        }
    }

    /// Takes the message of an id out.
    fn take(&mut self, id: u32) -> Option<Opened>
        ensures found { result ≡ find_open id self.old }
        ensures closed { self.new ≡ remove_entry (at_id id) self.old }
    {
        let opened = self.by_id.remove(&id)?;
        self.bytes -= opened.len();
        self.taken -= opened.taken();
        Some(opened)
    }
}
