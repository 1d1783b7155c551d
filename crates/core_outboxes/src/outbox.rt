//! The outbox of a connection.
ghost use Rattle.std.specs.Prelude.{◌+◌, ◌≤◌};
ghost use Rattle.std.specs.VecDeque.{deque_len, deque_capacity};

use crate::filed::Filed;
use poa_base::WantMemory;
use std::alloc::Global;
use std::collections::VecDeque;

/// The decided replies of a connection that it hasn't collected, and how many of its calls await a reply, for which there
/// is room.
#[derive(Drop)]
pub struct Outbox {
    /// In the order in which they are given.
    pub replies: VecDeque<Filed>,
    pub awaited: usize,
    ghost room: { deque_len replies + awaited ≤ deque_capacity replies },
}

impl Outbox {
    ghost use Rattle.std.specs.Prelude.{◌≡◌, ◌<◌, ◌++◌, ◌∷◌, [], drop, slice_get, if◌then◌else◌, IsOk, OnOk};
    ghost use Rattle.core_outboxes.specs.Outboxes.{HasRoomForOne, is_idle};

    /// Of a connection that asked nothing. Takes no memory.
    pub fn new(alloc: Global) -> Outbox
        ensures replies { result.replies.items ≡ [] }
        ensures awaited { result.awaited ≡ 0 }
    {
        Outbox {
            replies: VecDeque::new(alloc),
            awaited: 0,
        }
    }

    /// Makes room for the reply of one more call. Where there is room already it takes no memory.
    pub fn reserve(&mut self) -> Result<(), WantMemory>
        ensures replies { self.new.replies.items ≡ self.old.replies.items }
        ensures awaited { self.new.awaited ≡ self.old.awaited }
        ensures more { OnOk result (HasRoomForOne self.new) }
        ensures has_room { HasRoomForOne self.old → IsOk result }
    {
        let awaited = self.awaited.checked_add(1).ok_or(WantMemory)?;
        self.replies.reserve(awaited)?;
        Ok(())
    }

    /// One more call awaits a reply.
    pub fn expect(&mut self)
        requires { HasRoomForOne self.old }
        ensures replies { self.new.replies.items ≡ self.old.replies.items }
        ensures awaited { self.new.awaited ≡ self.old.awaited + 1 }
    {
        self.awaited += 1;
    }

    /// A call that awaits a reply is given this one. Takes no memory.
    pub fn file(&mut self, filed: Filed)
        requires { 0 < self.old.awaited }
        ensures replies { self.new.replies.items ≡ self.old.replies.items ++ filed ∷ [] }
        ensures awaited { self.new.awaited + 1 ≡ self.old.awaited }
        ensures room { HasRoomForOne self.old → HasRoomForOne self.new }
    {
        self.awaited -= 1;
        self.replies.push_back_reserved(filed);
    }

    /// The first reply is given out. Takes no memory.
    pub fn take(&mut self) -> Option<Filed>
        ensures given { result ≡ slice_get self.old.replies.items 0 }
        ensures replies { self.new.replies.items ≡ drop 1 self.old.replies.items }
        ensures awaited { self.new.awaited ≡ self.old.awaited }
    {
        self.replies.pop_front()
    }

    /// Gives its room back where the connection is owed nothing. Takes no memory.
    pub fn release(&mut self)
        ensures replies { self.new.replies.items ≡ self.old.replies.items }
        ensures awaited { self.new.awaited ≡ self.old.awaited }
        ensures room { deque_capacity self.new.replies
            ≡ (if is_idle self.old then 0 else deque_capacity self.old.replies) }
    {
        if self.awaited == 0 && self.replies.is_empty() {
            self.replies.shrink_to_fit();
        }
    }
}
