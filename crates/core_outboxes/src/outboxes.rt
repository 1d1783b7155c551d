//! The outboxes of all connections.
ghost use Rattle.std.specs.Prelude.{◌≡◌, ◌+◌, ◌<◌, ◌≤◌, ◌++◌, ◌∷◌, ◌==◌, ℕ, [], drop, length, slice_get, if◌then◌else◌, IsOk, OnOk};
ghost use Rattle.core_outboxes.specs.Outboxes.{HasRoomAt, awaited_at, replies_at, room_at, room_left};

use crate::filed::Filed;
use crate::fresh::Fresh;
use crate::outbox::Outbox;
use poa_base::WantMemory;
use std::alloc::Global;

/// The outbox of each connection that asked something.
#[derive(Drop)]
pub struct Outboxes {
    alloc: Global,
    /// By the connection's number.
    pub boxes: Vec<Outbox>,
    /// To whom the last entry gave replies.
    pub fresh: Fresh,
}

impl Outboxes {
    /// No connection asked anything. Takes no memory.
    pub fn new(alloc: Global) -> Outboxes
        ensures { result.boxes.items ≡ [] }
    {
        Outboxes {
            alloc,
            boxes: Vec::new(alloc),
            fresh: Fresh::none(),
        }
    }

    /// Makes room for the reply of one more call of a connection. Where there is room already it takes no memory.
    pub fn reserve(&mut self, conn: u32) -> Result<(), WantMemory>
        ensures replies { (n : ℕ)
            → replies_at self.new.boxes.items n ≡ replies_at self.old.boxes.items n }
        ensures awaited { (n : ℕ)
            → awaited_at self.new.boxes.items n ≡ awaited_at self.old.boxes.items n }
        ensures more { OnOk result (HasRoomAt self.new.boxes.items conn) }
        ensures has_room { HasRoomAt self.old.boxes.items conn → IsOk result }
    {
        reach(self.alloc, &mut self.boxes, conn)?;
        match self.boxes.get_mut(conn as usize) {
            Some(outbox) => outbox.reserve(),
            None => Err(WantMemory),
        }
    }

    /// One more call of a connection awaits a reply.
    pub fn expect(&mut self, conn: u32)
        requires { HasRoomAt self.old.boxes.items conn }
        ensures replies { (n : ℕ)
            → replies_at self.new.boxes.items n ≡ replies_at self.old.boxes.items n }
        ensures awaited { (n : ℕ)
            → awaited_at self.new.boxes.items n
            ≡ (if conn == n then 1 else 0) + awaited_at self.old.boxes.items n }
    {
        if let Some(outbox) = self.boxes.get_mut(conn as usize) {
            outbox.expect();
        }
    }

    /// A call that awaits a reply is given this one. Takes no memory.
    pub fn file(&mut self, filed: Filed)
        requires { 0 < awaited_at self.old.boxes.items filed.conn }
        ensures replies { (n : ℕ)
            → replies_at self.new.boxes.items n ≡ replies_at self.old.boxes.items n
            ++ (if filed.conn == n then filed ∷ [] else []) }
        ensures awaited { (n : ℕ)
            → (if filed.conn == n then 1 else 0) + awaited_at self.new.boxes.items n
            ≡ awaited_at self.old.boxes.items n }
        ensures room { (n : ℕ) → HasRoomAt self.old.boxes.items n
            → HasRoomAt self.new.boxes.items n }
    {
        self.fresh.note(&filed);
        file_in(&mut self.boxes, filed);
    }

    /// The first reply of a connection is given out. Takes no memory.
    pub fn take(&mut self, conn: u32) -> Option<Filed>
        ensures given { result ≡ slice_get (replies_at self.old.boxes.items conn) 0 }
        ensures replies { (n : ℕ)
            → replies_at self.new.boxes.items n
            ≡ drop (if conn == n then 1 else 0) (replies_at self.old.boxes.items n) }
        ensures awaited { (n : ℕ)
            → awaited_at self.new.boxes.items n ≡ awaited_at self.old.boxes.items n }
    {
        self.boxes.get_mut(conn as usize)?.take()
    }

    /// How many calls of a connection await a reply.
    pub fn awaited(&self, conn: u32) -> usize
        ensures { result ≡ awaited_at self.now.boxes.items conn }
    {
        match self.boxes.get(conn as usize) {
            Some(outbox) => outbox.awaited,
            None => 0,
        }
    }

    /// A connection that is owed nothing gives its room back. Takes no memory.
    pub fn release(&mut self, conn: u32)
        ensures replies { (n : ℕ)
            → replies_at self.new.boxes.items n ≡ replies_at self.old.boxes.items n }
        ensures awaited { (n : ℕ)
            → awaited_at self.new.boxes.items n ≡ awaited_at self.old.boxes.items n }
        ensures room { (n : ℕ)
            → room_at self.new.boxes.items n ≡ room_left conn self.old.boxes.items n }
    {
        if let Some(outbox) = self.boxes.get_mut(conn as usize) {
            outbox.release();
        }
    }
}

// A call that awaits a reply is given this one.
#[tactic(auto, using(crate::proofs::Put::is_there))]
fn file_in(boxes: &mut Vec<Outbox>, filed: Filed)
    requires { 0 < awaited_at boxes.old.items filed.conn }
    ensures replies { (n : ℕ)
        → replies_at boxes.new.items n
        ≡ replies_at boxes.old.items n ++ (if filed.conn == n then filed ∷ [] else []) }
    ensures awaited { (n : ℕ)
        → (if filed.conn == n then 1 else 0) + awaited_at boxes.new.items n
        ≡ awaited_at boxes.old.items n }
    ensures room { (n : ℕ) → HasRoomAt boxes.old.items n → HasRoomAt boxes.new.items n }
{
    let place = filed.conn as usize;
    boxes[place].file(filed);
}

// There is an outbox for each connection up to this one.
fn reach(alloc: Global, boxes: &mut Vec<Outbox>, conn: u32) -> Result<(), WantMemory>
    ensures replies { (n : ℕ) → replies_at boxes.new.items n ≡ replies_at boxes.old.items n }
    ensures awaited { (n : ℕ) → awaited_at boxes.new.items n ≡ awaited_at boxes.old.items n }
    ensures same { conn < length boxes.old.items → boxes.new.items ≡ boxes.old.items }
    ensures there { conn < length boxes.old.items → IsOk result }
{
    for _ in boxes.len()..conn as usize + 1 {
        boxes.push(Outbox::new(alloc))?;
    }
    Ok(())
}
