//! Rows of calls, each held by something of its own.
ghost use Rattle.std.specs.Prelude.{◌≡◌, ◌<◌, ℕ, true, List, length, map, slice_index_or, IfOk, IfSome, IfNone, OnOk};
ghost use Rattle.poa_base.specs.declared.Config.{Config};
ghost use Rattle.poa_base.specs.declared.Entry.{Entry as EntryOf};
ghost use Rattle.history_standing.specs.Arrivals.{arrivals as arrivals_in};
ghost use Rattle.history_standing.specs.Changes.{standing};
ghost use Rattle.history_standing.specs.Situations.{facts_of};
ghost use Rattle.held_queue.specs.Blocks.{Blocks};
ghost use Rattle.held_queue.specs.Frees.{frees};
ghost use Rattle.held_queue.specs.Held.{RowsAgree, AreSettled};
ghost use Rattle.held_queue.specs.Numbers.{Heap, has, IsLeast};
ghost use Rattle.held_queue.specs.Rows.{IsSettledRow, GoesOver, freed_grip, freed_row, settled_grip, is_asked as the_is_asked, is_empty_row, regripped};
ghost use Rattle.held_queue.specs.declared.grip.Grip.TheVariants as grips;

use crate::freed::Freed;
use crate::grip::Grip;
use crate::hold::Hold;
use crate::numbers::Numbers;
use crate::row::{Row, move_least};
use history_standing::Flight;
use history_standing::flights::is_running;
use poa_base::WantMemory;
use std::alloc::Global;

/// How a row is held once something was freed.
fn freed_as(grip: Grip, freed: Freed) -> Grip
    ensures { result ≡ freed_grip freed grip }
{
    match grip {
        Grip::Held(hold) => {
            if !freed.frees(hold) {
                return grip;
            }
            match hold {
                Hold::Turn(adapter) if !freed.all => Grip::Turn(adapter),
                _ => Grip::Loose,
            }
        }
        Grip::Turn(_) if !freed.all => grip,
        Grip::Turn(_) | Grip::Loose => Grip::Loose,
    }
}

/// Lets go of a row what was freed.
fn free_one(row: &mut Row, freed: Freed)
    ensures { row.new ≡ freed_row freed row.old }
{
    row.grip = freed_as(row.grip, freed);
}

/// Lets go of each row what was freed. Takes no memory.
#[tactic(auto, using(history_standing::proofs::InPlace::mapped_one))]
pub fn free(rows: &mut Vec<Row>, freed: Freed)
    ensures { rows.new.items ≡ map (freed_row freed) rows.old.items }
{
    for row in rows.iter_mut() {
        free_one(row, freed);
    }
}

/// The turn is taken where a request is in flight in the adapter.
fn settled(grip: Grip, flights: &[Flight]) -> Grip
    ensures { result ≡ settled_grip flights.now grip }
{
    match grip {
        Grip::Turn(adapter) if is_running(flights, adapter) => Grip::Held(Hold::Turn(adapter)),
        _ => grip,
    }
}

/// Whether a worker asks the first call of a row.
fn is_asked(grip: Grip, worker: u32) -> bool
    ensures { result ≡ the_is_asked grip worker }
{
    match grip {
        Grip::Held(Hold::Main) => worker == 0,
        Grip::Held(_) => false,
        Grip::Turn(_) | Grip::Loose => true,
    }
}

/// Makes the first call of a row ready, if the worker asks it.
fn settle_one(
    row: &mut Row,
    ready: &mut Numbers,
    flights: &[Flight],
    worker: u32,
) -> Result<(), WantMemory>
    ensures grip { row.new.grip ≡ settled_grip flights.now row.old.grip }
    ensures goes { GoesOver row.old.calls.heap row.new.calls.heap ready.old.heap ready.new.heap }
    ensures settled { OnOk result (IsSettledRow worker ready.new.heap row.new) }
{
    row.grip = settled(row.grip, flights);
    if is_asked(row.grip, worker) {
        return move_least(&mut row.calls, ready);
    }
    Ok(())
}

/// Makes the first call of each row ready that the worker asks.
pub fn settle(
    rows: &mut Vec<Row>,
    ready: &mut Numbers,
    flights: &[Flight],
    worker: u32,
) -> Result<(), WantMemory>
    ensures kept { (c : Config) (run : ℕ) (h : List EntryOf)
        → flights.now ≡ (standing c run h).flights
        → RowsAgree c run h ready.old.heap rows.old.items
        → RowsAgree c run h ready.new.heap rows.new.items }
    ensures settled { OnOk result (AreSettled worker ready.new.heap rows.new.items) }
{
    for i in 0..rows.len() {
        if let Some(row) = rows.get_mut(i) {
            settle_one(row, ready, flights, worker)?;
        }
    }
    Ok(())
}

/// The place of the row that is held so, where there is one.
fn place_of(rows: &[Row], grip: Grip) -> Option<usize>
    ensures { IfSome result
        (λ i. (i < length rows.now) × ((d : Row) → (slice_index_or rows.now i d).grip ≡ grip)) }
{
    rows.iter().position(|row| row.grip == grip)
}

/// The place of a row without calls, where there is one.
fn place_free(rows: &[Row]) -> Option<usize>
    ensures { IfSome result
        (λ i. (i < length rows.now) × ((d : Row) → is_empty_row (slice_index_or rows.now i d))) }
{
    rows.iter().position(|row| row.calls.is_empty())
}

/// Holds the calls of a row, which has none, by another thing.
fn set_grip(rows: &mut Vec<Row>, place: usize, grip: Grip)
    ensures { rows.new.items ≡ regripped place grip rows.old.items }
{
    if let Some(row) = rows.get_mut(place) {
        row.grip = grip;
    }
}

/// The place of the row of the calls that are held by this, which is made where there is none.
fn place_for(alloc: Global, hold: Hold, rows: &mut Vec<Row>) -> Result<usize, WantMemory>
    ensures place { IfOk result
        (λ i. (i < length rows.new.items)
        × ((d : Row) → (slice_index_or rows.new.items i d).grip ≡ grips.Held hold)) }
    ensures kept { (c : Config) (run : ℕ) (h : List EntryOf) (ready : Heap)
        → RowsAgree c run h ready rows.old.items
        → RowsAgree c run h ready rows.new.items }
{
    if let Some(place) = place_of(rows, Grip::Held(hold)) {
        return Ok(place);
    }
    if let Some(place) = place_free(rows) {
        set_grip(rows, place, Grip::Held(hold));
        return Ok(place);
    }
    let place = rows.len();
    rows.push(Row {
        grip: Grip::Held(hold),
        calls: Numbers::new(alloc),
    })?;
    Ok(place)
}

/// The least of those that are ready is held by this.
pub fn put(
    alloc: Global,
    hold: Hold,
    rows: &mut Vec<Row>,
    ready: &mut Numbers,
) -> Result<(), WantMemory>
    ensures { (c : Config) (run : ℕ) (h : List EntryOf) (arrival : ℕ)
        → IsLeast ready.old.heap arrival → arrival < arrivals_in h
        → Blocks (facts_of c run h arrival) hold
        → RowsAgree c run h ready.old.heap rows.old.items
        → RowsAgree c run h ready.new.heap rows.new.items }
{
    let place = place_for(alloc, hold, rows)?;
    match rows.get_mut(place) {
        Some(row) => move_least(ready, &mut row.calls),
        None => Ok(()),
    }
}
