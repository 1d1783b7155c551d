//! The activations that were begun, in a table: found by their numbers, and changed in place.
ghost use Rattle.std.specs.Prelude.{◌≡◌, ◌+◌, ◌<◌, ◌++◌, ◌∷◌, ℕ, [], ◌==◌, ◌&&◌, Bool, Some, None, true, false, not, map, find, length, option_copied, if◌then◌else◌, IfOk, OnOk, OnErr};
ghost use Rattle.std.specs.List.{filter_map, list_any};
ghost use Rattle.std.specs.Map.Iter.{deref, ShowsInOrder};
ghost use Rattle.history_standing.specs.Nodes as tree;
ghost use Rattle.history_standing.specs.Trees.{In};
ghost use Rattle.history_standing.specs.declared.activation.Activation.{Activation as Kept};
ghost use Rattle.history_standing.specs.Changes as changes;
ghost use Rattle.history_standing.specs.Ends as ends;
ghost use Rattle.history_standing.specs.Situations as situations;
ghost use Rattle.history_standing.specs.Standings as stands;
ghost use Rattle.history_standing.specs.Templates as configured;
ghost use Rattle.active_map.specs.Endings.{ended};
ghost use Rattle.active_map.specs.Made as changed;
ghost use Rattle.active_map.specs.Tables.{is_leaving, is_moving};

mod forgetting;
mod letting_out;

use crate::adapters::{has_changing, has_live, has_other, is_any_changing};
use crate::by_id::{Index, add, numbers_of, only_one, remove};
use crate::change::Change;
use crate::ending::Ending;
use crate::leaving::{Leaving, enter, enter_ended, strike};
use crate::passing::{Passing, has_own};
use crate::rows::{Rows, count_moving, end_all, first_active, first_live, moves};
use history_standing::{Activation, Node, Phase};
use poa_base::{Config, Name, Oid, WantMemory};
use std::alloc::Global;
use std::collections::btree_map::Values;
use std::collections::btree_set::Iter;
use std::collections::{BTreeMap, BTreeSet};
use std::marker::Model;

/// The activations that were begun, but for those that are over and are forgotten.
#[derive(Drop)]
pub struct Activations {
    alloc: Global,
    /// How many are forgotten.
    forgotten: usize,
    /// The others, by their numbers.
    rows: Rows,
    /// Their numbers by adapter and id.
    ids: Index,
    /// How many of these are on their way in or out.
    moving: usize,
    /// The numbers of those that are ending and in the map, and maybe of others.
    leaving: Leaving,
    /// The numbers of those that are on their way in or out, or over, while they are few.
    passing: Passing,
}

/// How many are looked for at most by their numbers, one by one, before all are looked at.
const FEW: usize = 4;

impl Model for Activations {
    ghost use Rattle.std.specs.Map.{values_of};
    ghost use Rattle.active_map.specs.Tables.{Table};
    ghost use Rattle.active_map.specs.Wholes.{IsWhole};

    ghost Value = { Table };

    ghost view = { λ t. record { forgotten = t.forgotten; kept = values_of t.rows.entries } };

    ghost invariant = { λ t. IsWhole t.forgotten t.moving t.ids t.leaving.keys t.passing t.rows.entries };
}

impl Activations {
    /// None. Takes no memory.
    pub fn new(alloc: Global) -> Self
        ensures { result ≡ record { forgotten = 0; kept = [] } }
    {
        Activations {
            alloc,
            forgotten: 0,
            rows: BTreeMap::new(alloc),
            ids: BTreeMap::new(alloc),
            moving: 0,
            leaving: BTreeSet::new(alloc),
            passing: Passing::new(alloc),
        }
    }

    /// How many were begun, which numbers the next one. Fails where it has more than 32 bits.
    pub fn begun(&self) -> Result<u32, WantMemory>
        ensures { IfOk result (λ begun. begun ≡ self.now.forgotten + length self.now.kept) }
    {
        let begun = self.forgotten + self.rows.len();
        u32::try_from(begun).map_err(|_| WantMemory)
    }

    /// Those that are kept, in the order in which they were begun.
    pub fn iter(&self) -> Values<'_, u32, Activation>
        ensures rest { result ≡ self.now.kept }
        ensures runs { ShowsInOrder (deref {X = Activation}) }
    {
        self.rows.values()
    }

    /// Whether none is on its way in or out.
    pub fn is_still(&self) -> bool
        ensures { result ≡ not (list_any is_moving self.now.kept) }
    {
        self.moving == 0
    }

    /// The numbers of those that are ending and in the map, ascending; maybe of others, too. A search by these numbers finds
    /// what a search of all would, where only one that is ending and in the map can pass.
    pub fn leaving(&self) -> Iter<'_, u32>
        ensures finds { (p : Kept → Bool) → ((a : Kept) → p a ≡ true → is_leaving a ≡ true)
            → find p (filter_map (λ n. find (λ a. a.number == n) self.now.kept) result)
            ≡ find p self.now.kept }
        ensures runs { ShowsInOrder (deref {X = ℕ}) }
    {
        self.leaving.iter()
    }

    /// What is known of the numbers of those that are kept: each has 32 bits, and is that of no other.
    pub fn numbers(&self)
        ensures fit { (a : Kept) → In a self.now.kept → a.number < 4294967296 }
        ensures alone { (a b : Kept) → In a self.now.kept → In b self.now.kept → a.number ≡ b.number
            → a ≡ b }
    {
        let _rows = &self.rows;
    }

    /// That of a number, where it is kept.
    pub fn numbered(&self, number: u32) -> Option<&Activation>
        ensures { option_copied result ≡ find (λ a. a.number == number) self.now.kept }
    {
        self.rows.get(&number)
    }

    /// The first of an id that is active.
    pub fn active_of(&self, adapter: u32, oid: &[u8]) -> Option<&Activation>
        ensures { option_copied result
            ≡ find (λ a. stands.is_of adapter oid.now a && stands.is_active a) self.now.kept }
    {
        first_active(&self.rows, numbers_of(&self.ids, adapter, oid))
    }

    /// The first of an id that isn't over.
    pub fn live_of(&self, config: &Config, adapter: u32, oid: &[u8]) -> Option<&Activation>
        ensures { option_copied result
            ≡ find (λ a. stands.is_of adapter oid.now a && not (ends.is_over config.now a))
            self.now.kept }
    {
        first_live(&self.rows, config, numbers_of(&self.ids, adapter, oid))
    }

    /// Whether one of an adapter isn't over.
    pub fn has_live(&self, config: &Config, adapter: u32) -> bool
        ensures { result ≡ list_any (λ a. (a.adapter == adapter) && not (ends.is_over config.now a))
            self.now.kept }
    {
        match self.ids.get(&adapter) {
            Some(ids) => has_live(&self.rows, ids, config, adapter),
            None => false,
        }
    }

    /// Whether an incarnation or etherealization is unfinished in an adapter.
    pub fn is_changing(&self, config: &Config, adapter: u32) -> bool
        ensures { result ≡ situations.is_changing config.now self.now.kept adapter }
    {
        if self.passing.is_whole {
            let numbers = self.passing.numbers.as_slice();
            return is_any_changing(&self.rows, config, adapter, numbers);
        }
        match self.ids.get(&adapter) {
            Some(ids) => has_changing(&self.rows, ids, config, adapter),
            None => false,
        }
    }

    /// One more is begun, which has the next number.
    pub fn push(&mut self, activation: Activation) -> Result<(), WantMemory>
        requires next { activation.number ≡ self.old.forgotten + length self.old.kept }
        requires few { activation.number < 4294967296 }
        requires lasts { activation.ending ≡ false }
        ensures ok { OnOk result
            (self.new ≡ record self.old { kept = self.old.kept ++ activation ∷ [] }) }
        ensures err { OnErr result (self.new ≡ self.old) }
    {
        let number = activation.number;
        let more = moves(&activation);
        let oid = activation.oid.as_slice();
        self.passing.reserve()?;
        add(self.alloc, &mut self.ids, activation.adapter, oid, number)?;
        self.passing.note(&activation);
        match self.rows.insert(number, activation) {
            Ok(_) => {
                self.moving += more;
                Ok(())
            }
            Err(failed) => {
                let activation = &failed.value.1;
                let oid = activation.oid.as_slice();
                remove(&mut self.ids, activation.adapter, oid, number);
                Err(WantMemory)
            }
        }
    }

    /// That of a number is changed. Takes no memory.
    fn change(&mut self, number: u32, change: Change<'_>)
        ensures { self.new ≡ record self.old {
          kept = map
              (changes.at_number number (changed.made change.entry)) self.old.kept;
        } }
    {
        if let Some(activation) = self.rows.get_mut(&number) {
            self.moving -= moves(activation);
            change.make(activation);
            self.moving += moves(activation);
            self.passing.note(activation);
        }
    }

    /// That of a number, which is being incarnated, has come so far.
    pub fn bring(&mut self, number: u32, phase: Phase)
        ensures { self.new ≡ record self.old {
          kept = map
              (changes.at_number number (changes.come_to phase)) self.old.kept;
        } }
    {
        self.change(number, Change::Come(phase));
    }

    /// Whether the activation has a servant that was made for it, as each has that has one that was made.
    fn is_alone(&self, activation: &Activation) -> bool
        ensures { result ≡ true → changes.is_elsewhere self.now.kept activation.now ≡ false }
    {
        self.passing.are_own && has_own(activation)
    }

    /// Whether the servant of an activation is in the map of its adapter by another one.
    fn is_elsewhere(&self, activation: &Activation) -> bool
        ensures { result ≡ changes.is_elsewhere self.now.kept activation.now }
    {
        if self.is_alone(activation) {
            return false;
        }
        match self.ids.get(&activation.adapter) {
            Some(ids) => has_other(&self.rows, ids, activation),
            None => false,
        }
    }

    /// Whether the servant of that of a number stays in the map by another one.
    fn remains(&self, number: u32) -> bool
        ensures { (a : Kept) → In a self.now.kept → (a.number == number) ≡ true
            → result ≡ changes.is_elsewhere self.now.kept a }
    {
        self.numbers();
        match self.numbered(number) {
            Some(activation) => self.is_elsewhere(activation),
            None => false,
        }
    }

    /// That of a number is taken out of the map.
    pub fn take_out(&mut self, number: u32)
        ensures { self.new ≡ record self.old {
          kept = map
              (changes.at_number number
              (λ a. record a { out = true; remaining = changes.is_elsewhere self.old.kept a }))
              self.old.kept;
        } }
    {
        let remaining = self.remains(number);
        self.change(number, Change::TakeOut { remaining });
        strike(&mut self.leaving, number);
    }

    /// The servant of that of a number is etherealized.
    pub fn etherealize(&mut self, number: u32)
        ensures { self.new ≡ record self.old {
          kept = map (changes.at_number number (λ a. record a { etherealized = true }))
              self.old.kept;
        } }
    {
        self.change(number, Change::Etherealize);
    }

    /// Those that a command ends are ending. Their numbers are entered first, since that may fail.
    fn end(&mut self, ending: Ending<'_>) -> Result<(), WantMemory>
        ensures ok { OnOk result
            (self.new ≡ record self.old { kept = map (ended ending.entry) self.old.kept }) }
        ensures err { OnErr result (self.new ≡ self.old) }
    {
        enter_ended(&mut self.leaving, &self.rows, ending)?;
        end_all(&mut self.rows, ending);
        self.moving = count_moving(&self.rows);
        Ok(())
    }

    /// That of a number is ending, as a command makes it. Its number is entered first, since that may fail.
    fn end_one(&mut self, number: u32, ending: Ending<'_>) -> Result<(), WantMemory>
        ensures ok { OnOk result
            (self.new ≡ record self.old {
              kept = map (changes.at_number number (ended ending.entry))
                  self.old.kept;
            }) }
        ensures err { OnErr result (self.new ≡ self.old) }
    {
        enter(&mut self.leaving, number)?;
        if let Some(activation) = self.rows.get_mut(&number) {
            self.moving -= moves(activation);
            ending.end(activation);
            self.moving += moves(activation);
        }
        Ok(())
    }

    /// Those of the adapters that stand at the path or below it are ending. Fails for want of memory; then nothing is changed.
    pub fn end_below(
        &mut self,
        nodes: &[Node],
        path: &[Name],
        etherealize: bool,
    ) -> Result<(), WantMemory>
        ensures ok { OnOk result (self.new ≡ record self.old {
          kept = map
              (λ a. if tree.stands_under nodes.now path.now a.adapter then changes.ended_by_destroy
              etherealize a else a) self.old.kept;
        }) }
        ensures err { OnErr result (self.new ≡ self.old) }
    {
        self.end(Ending::Below(nodes, path, etherealize))
    }

    /// Those of the manager that have a servant activator are ending. Fails for want of memory; then nothing is changed.
    pub fn end_managed(&mut self, config: &Config, manager: usize) -> Result<(), WantMemory>
        ensures ok { OnOk result (self.new ≡ record self.old {
          kept = map
              (λ a. if configured.has_activator config.now a.path &&
              (configured.manager_at config.now a.path == manager) then changes.ended_by_destroy
              true a else a) self.old.kept;
        }) }
        ensures err { OnErr result (self.new ≡ self.old) }
    {
        self.end(Ending::Managed(config, manager))
    }

    /// Those of an id are ending. Fails for want of memory; then nothing is changed.
    pub fn end_id(&mut self, adapter: u32, oid: &Oid) -> Result<(), WantMemory>
        ensures ok { OnOk result (self.new ≡ record self.old {
          kept = map (λ a. if stands.is_of adapter oid.now
              a then record a { ending = true } else a) self.old.kept;
        }) }
        ensures err { OnErr result (self.new ≡ self.old) }
    {
        let numbers = numbers_of(&self.ids, adapter, oid.as_slice());
        if let Some(number) = only_one(numbers) {
            return self.end_one(number, Ending::Id(adapter, oid));
        }
        self.end(Ending::Id(adapter, oid))
    }
}
