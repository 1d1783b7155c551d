//! The desk of replies: who is owed one, and which are decided.
ghost use Rattle.std.specs.Prelude.{◌≡◌, ◌==◌, ℕ, filter, length};
ghost use Rattle.std.specs.List.{list_any};
ghost use Rattle.core_outboxes.specs.Outboxes.{awaited_at};
ghost use Rattle.core_outboxes.specs.Owed.{has_wait};

use crate::decision::Decision;
use crate::filed::Filed;
use crate::fresh::Fresh;
use crate::outboxes::Outboxes;
use crate::owing::Owing;
use crate::rows::{any_waits, file_decided, file_decision, put_waits};
use crate::wait::{Ordered, Wait};
use core_standing::Standing;
use poa_base::{Config, WantMemory};
use std::alloc::Global;
use std::collections::VecDeque;

/// The calls that are owed a reply, and the replies that are decided and not collected.
#[derive(Drop)]
pub struct Desk {
    /// In the order of their arriving.
    pub owing: VecDeque<Owing>,
    /// What each connection is given, with room for the replies that it is owed.
    pub outboxes: Outboxes,
    /// How many replies are to be collected: those that are owed, and those that are decided.
    pub due: usize,
    /// Whether one of the calls waits for something. Where none does, an entry decides its target alone.
    pub waits: bool,
    ghost waits_is: { waits ≡ list_any has_wait owing.items },
    ghost awaited: { (conn : ℕ) → awaited_at outboxes.boxes.items conn ≡ length (filter (λ o. o.conn == conn) owing.items) },
}

impl Desk {
    ghost use Rattle.std.specs.Prelude.{◌≤◌, ◌+◌, ◌++◌, ◌∷◌, List, not, [], find, map, IsOk, OnOk};
    ghost use Rattle.core_standing.specs.Seen.{seen};
    ghost use Rattle.core_outboxes.specs.declared.filed.Filed.{Filed as FiledRow};
    ghost use Rattle.core_outboxes.specs.Decided.{target_of};
    ghost use Rattle.core_outboxes.specs.Desk as desks;
    ghost use Rattle.core_outboxes.specs.Desk.{Files, IsAlone, HasRoomForOne};
    ghost use Rattle.poa_history.specs.Numbers.{Ascends};
    ghost use Rattle.core_outboxes.specs.Outboxes.{room_at, room_left};
    ghost use Rattle.core_outboxes.specs.Owed.{arrivals_of};

    /// Nobody is owed a reply. Takes no memory.
    pub fn new(alloc: Global) -> Desk
        ensures owing { result.owing.items ≡ [] }
        ensures files { Files result [] }
    {
        Desk {
            owing: VecDeque::new(alloc),
            outboxes: Outboxes::new(alloc),
            due: 0,
            waits: false,
        }
    }

    /// Makes room for a call of a connection that is owed a reply, and for its reply. Where there is room already it
    /// takes no memory.
    pub fn reserve(&mut self, conn: u32) -> Result<(), WantMemory>
        ensures owing { self.new.owing.items ≡ self.old.owing.items }
        ensures files { (fs : List FiledRow) → Files self.old fs → Files self.new fs }
        ensures due { self.new.due ≡ self.old.due }
        ensures more { OnOk result (HasRoomForOne conn self.new) }
        ensures has_room { HasRoomForOne conn self.old → IsOk result }
    {
        self.due.checked_add(1).ok_or(WantMemory)?;
        self.owing.reserve(1)?;
        self.outboxes.reserve(conn)
    }

    /// A call is owed a reply, for which there is room.
    pub fn owe(&mut self, owing: Owing)
        requires { HasRoomForOne owing.conn self.old }
        ensures owing { self.new.owing.items ≡ self.old.owing.items ++ owing ∷ [] }
        ensures files { (fs : List FiledRow) → Files self.old fs → Files self.new fs }
        ensures due { self.new.due ≡ self.old.due + 1 }
    {
        self.waits = self.waits || owing.wait.is_some();
        self.due += 1;
        self.outboxes.expect(owing.conn);
        self.owing.push_back_reserved(owing);
    }

    /// An arrival was admitted, and waits for this or for nothing.
    pub fn set_wait(&mut self, arrival: u64, wait: Option<Wait>)
        ensures owing { self.new.owing.items
            ≡ map (desks.set_wait arrival wait) self.old.owing.items }
        ensures files { (fs : List FiledRow) → Files self.old fs → Files self.new fs }
        ensures due { self.new.due ≡ self.old.due }
        ensures spare { (conn : ℕ) → HasRoomForOne conn self.old → HasRoomForOne conn self.new }
    {
        if self.waits || wait.is_some() {
            put_waits(&mut self.owing, arrival, wait);
            self.waits = any_waits(&self.owing);
        }
    }

    /// An entry decides this call, if one, and each command for which what it waits for has come. Takes no memory.
    pub fn decide(
        &mut self,
        config: &Config,
        standing: &Standing,
        decision: Option<Decision>,
        ordered: Option<Ordered>,
    )
        requires alone { IsAlone (target_of decision) self.old.owing.items }
        requires ascends { Ascends (arrivals_of self.old.owing.items) }
        ensures owing { self.new.owing.items ≡ filter
            (λ o. not (desks.is_decided config.now (seen standing.now) (target_of decision)
            ordered o))
            self.old.owing.items }
        ensures files { (fs : List FiledRow) → Files self.old fs
            → Files self.new (fs ++ map (desks.file decision)
            (filter (desks.is_decided config.now (seen standing.now) (target_of decision) ordered)
            self.old.owing.items)) }
        ensures due { self.new.due ≡ self.old.due }
        ensures spare { (conn : ℕ) → HasRoomForOne conn self.old → HasRoomForOne conn self.new }
    {
        self.outboxes.fresh = Fresh::none();
        if self.waits {
            file_decided(
                config,
                standing,
                decision,
                ordered,
                &mut self.owing,
                &mut self.outboxes,
            );
            self.waits = any_waits(&self.owing);
        } else if let Some(decision) = decision {
            file_decision(decision, &mut self.owing, &mut self.outboxes);
        }
    }

    /// The first reply of a connection is given out. Takes no memory.
    pub fn collect(&mut self, conn: u32) -> Option<Filed>
        ensures given { (fs : List FiledRow) → Files self.old fs
            → result ≡ find (λ f. f.conn == conn) fs }
        ensures files { (fs : List FiledRow) → Files self.old fs
            → Files self.new (desks.without_first conn fs) }
        ensures owing { self.new.owing.items ≡ self.old.owing.items }
    {
        let filed = self.outboxes.take(conn)?;
        self.due = self.due.saturating_sub(1);
        Some(filed)
    }

    /// How many replies a connection is owed.
    pub fn owed(&self, conn: u32) -> u64
        ensures { result ≡ length (filter (λ o. o.conn == conn) self.now.owing.items) }
    {
        self.outboxes.awaited(conn) as u64
    }

    /// A connection left: where it is owed nothing, its room is given back. Takes no memory.
    pub fn leave(&mut self, conn: u32)
        ensures owing { self.new.owing.items ≡ self.old.owing.items }
        ensures files { (fs : List FiledRow) → Files self.old fs → Files self.new fs }
        ensures due { self.new.due ≡ self.old.due }
        ensures room { (n : ℕ)
            → room_at self.new.outboxes.boxes.items n
            ≡ room_left conn self.old.outboxes.boxes.items n }
    {
        self.outboxes.release(conn);
    }
}
