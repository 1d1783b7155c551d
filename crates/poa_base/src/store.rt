//! The states of servants that were etherealized, kept for their next incarnation.
ghost use Rattle.std.specs.Prelude.{◌≡◌, ◌++◌, [], map, ℕ, List, Option, Some, IsSome, IfOk, OnOk, OnErr, if◌then◌else◌};
ghost use Rattle.std.specs.BTreeMap as tree;
ghost use Rattle.std.specs.BTreeMap.{is_at};
ghost use Rattle.std.specs.Ordering.{is_eq};
ghost use Rattle.poa_base.specs.declared.servant.State.{State};
ghost use Rattle.poa_base.specs.Rows.{row_seen};
ghost use Rattle.poa_base.specs.Shelves.{IsInOrder, placed};
ghost use Rattle.std.specs.List.{filter_map};
ghost use Rattle.std.specs.Option.{option_copied};
ghost use Rattle.std.specs.FinMap as finite;
ghost use Rattle.poa_base.specs.Store.{Slots, filled, oid_cmp, place_cmp, stored, IsReserved, with_place, with_room, with_state, states};

use crate::copy::TryClone;
use crate::oid::Oid;
use crate::path::Path;
use crate::servant::State;
use std::alloc::{AllocError, Global};
use std::collections::BTreeMap;
use std::marker::Model;

/// A state with its place, as a store lends it.
#[derive(Clone, Copy, Drop)]
pub struct Row<'a> {
    pub path: &'a Path,
    pub oid: &'a Oid,
    pub state: &'a State,
}

/// A finite map from an adapter's path and an object id to a state.
#[derive(Drop)]
pub struct Store {
    shelves: BTreeMap<Path, BTreeMap<Oid, Option<State>>>,
    alloc: Global,
}

impl Model for Store {
    ghost use Rattle.poa_base.specs.contracts.servant.State as state;
    ghost use Rattle.std.specs.Coded.{coded×, coded_list, coded_option, coded_ℕ};
    ghost use Rattle.std.specs.FinMap as finite;
    ghost use Rattle.poa_base.specs.Store.{Slots};
    ghost use Rattle.poa_base.specs.Shelves.{slots_of, IsShelved};

    ghost Value = { Slots };

    ghost coded = { finite.code (coded× (coded_list (coded_list coded_ℕ)) (coded_list coded_ℕ)) (coded_option state.the_row.coded) };

    ghost view = { λ s. slots_of s.shelves.entries };

    ghost invariant = { λ s. IsShelved s.shelves.entries };
}

impl Store {
    /// The empty store. Takes no memory.
    pub fn new(alloc: Global) -> Self
        ensures { result ≡ finite.empty }
    {
        Store {
            shelves: BTreeMap::new(alloc),
            alloc,
        }
    }

    /// The state stored at a path and id.
    pub fn get(&self, path: &Path, oid: &Oid) -> Option<&State>
        ensures { option_copied result ≡ stored self.now path.now oid.now }
    {
        self.shelves.get(path)?.get(oid)?.as_ref()
    }

    /// The states with their places, by path and then by id.
    pub fn rows(&self) -> Result<Vec<Row<'_>>, AllocError>
        ensures { IfOk result (λ rows. map row_seen rows.items ≡ states self.now) }
    {
        let mut rows = Vec::new(self.alloc);
        for (path, shelf) in &self.shelves {
            add_rows(&mut rows, path, shelf)?;
        }
        Ok(rows)
    }

    /// Makes room for a state at a path and id, so that `set` there takes no memory. No state changes.
    pub fn reserve(&mut self, path: &Path, oid: &Oid) -> Result<(), AllocError>
        ensures ok { OnOk result (self.new ≡ with_room self.old path.now oid.now) }
        ensures reserved { OnOk result (IsReserved self.new path.now oid.now) }
        ensures err { OnErr result (self.new ≡ self.old) }
    {
        match self.shelves.get_mut(path) {
            Some(shelf) => reserve_on(shelf, oid),
            None => {
                let mut shelf = BTreeMap::new(self.alloc);
                reserve_on(&mut shelf, oid)?;
                self.shelves.insert(path.try_clone()?, shelf)?;
                Ok(())
            }
        }
    }

    /// Stores a state at a path and id, reserved or not. On want of memory no state changes.
    pub fn put(&mut self, path: &Path, oid: &Oid, state: State) -> Result<(), AllocError>
        ensures ok { OnOk result (self.new ≡ with_state self.old path.now oid.now state) }
        ensures err { OnErr result (self.new ≡ self.old) }
    {
        match self.shelves.get_mut(path) {
            Some(shelf) => put_on(shelf, oid, state),
            None => {
                let mut shelf = BTreeMap::new(self.alloc);
                put_on(&mut shelf, oid, state)?;
                self.shelves.insert(path.try_clone()?, shelf)?;
                Ok(())
            }
        }
    }

    /// Stores a state at a path and id that were reserved. Takes no memory.
    pub fn set(&mut self, path: &Path, oid: &Oid, state: State)
        requires { IsReserved self.old path.now oid.now }
        ensures { self.new ≡ with_state self.old path.now oid.now state }
    {
        let shelf = self.shelves.get_mut(path).unwrap();
        set_on(shelf, oid, state);
    }
}

/// Keeps the state at the id, or makes room for one.
fn reserve_on(shelf: &mut BTreeMap<Oid, Option<State>>, oid: &Oid) -> Result<(), AllocError>
    requires { IsInOrder shelf.old }
    ensures ok { OnOk result ((other : List ℕ) → tree.get oid_cmp shelf.new other
        ≡ (if is_at (oid_cmp oid.now) other then Some
        (filled (tree.get oid_cmp shelf.old oid.now)) else tree.get oid_cmp shelf.old other)) }
    ensures err { OnErr result (shelf.new.entries ≡ shelf.old.entries) }
    ensures ordered { IsInOrder shelf.new }
{
    if shelf.contains_key(oid) {
        return Ok(());
    }
    shelf.insert(oid.try_clone()?, None)?;
    Ok(())
}

fn put_on(
    shelf: &mut BTreeMap<Oid, Option<State>>,
    oid: &Oid,
    state: State,
) -> Result<(), AllocError>
    requires { IsInOrder shelf.old }
    ensures ok { OnOk result ((other : List ℕ) → tree.get oid_cmp shelf.new other
        ≡ (if is_at (oid_cmp oid.now) other then Some (Some state) else tree.get oid_cmp shelf.old other)) }
    ensures err { OnErr result (shelf.new.entries ≡ shelf.old.entries) }
    ensures ordered { IsInOrder shelf.new }
{
    shelf.insert(oid.try_clone()?, Some(state))?;
    Ok(())
}

fn set_on(shelf: &mut BTreeMap<Oid, Option<State>>, oid: &Oid, state: State)
    requires { IsSome (tree.get oid_cmp shelf.old oid.now) }
    ensures value { (other : List ℕ) → tree.get oid_cmp shelf.new other
        ≡ (if is_at (oid_cmp oid.now) other then Some (Some state) else tree.get oid_cmp shelf.old other) }
    ensures ordered { IsInOrder shelf.new }
{
    let slot = shelf.get_mut(oid).unwrap();
    *slot = Some(state);
}

fn add_rows<'a>(
    rows: &mut Vec<Row<'a>>,
    path: &'a Path,
    shelf: &'a BTreeMap<Oid, Option<State>>,
) -> Result<(), AllocError>
    ensures { OnOk result
        (map row_seen rows.new.items ≡ map row_seen rows.old.items ++ filter_map with_place (placed path.now shelf.now.entries [])) }
{
    for (oid, slot) in shelf {
        if let Some(state) = slot {
            rows.push(Row { path, oid, state })?;
        }
    }
    Ok(())
}

/// What stands after `reserve` and `set`: reserving changes no state, setting changes one, and what is
/// reserved stays so.
pub fn stores_change_one_place()
    ensures room { (slots : Slots) (path : List (List ℕ)) (oid : List ℕ) (q : List (List ℕ)) (j : List ℕ) →
        stored (with_room slots path oid) q j ≡ stored slots q j }
    ensures state { (slots : Slots) (path : List (List ℕ)) (oid : List ℕ) (state : State) (q : List (List ℕ)) (j : List ℕ) →
        stored (with_state slots path oid state) q j ≡ (if is_eq (place_cmp (q, j) (path, oid)) then Some state else stored slots q j) }
    ensures stays { (slots : Slots) (path : List (List ℕ)) (oid : List ℕ) (slot : Option State) (q : List (List ℕ)) (j : List ℕ) →
        IsReserved slots q j → IsReserved (finite.insert slots (path, oid) slot) q j }
{}
