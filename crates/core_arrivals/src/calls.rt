//! Where in the journal each call arrived.
ghost use Rattle.std.specs.Prelude.{◌≡◌, [], ◌<◌, ℕ, true, Some, None, reverse, option_copied, option_map, vec_len, vec_capacity, IfOk, IsOk, OnOk};
ghost use Rattle.std.specs.List.{slice_get};
ghost use Rattle.poa_base.specs.declared.Entry.{Entry};
ghost use Rattle.journal_entries.specs.Rows.{seen};
ghost use Rattle.history_standing.specs.Arrivals as arrived;
ghost use Rattle.poa_history.specs.Entries as made;
ghost use Rattle.core_arrivals.specs.Queued as queued;
ghost use Rattle.core_arrivals.specs.Placed as placed;
ghost use Rattle.core_arrivals.specs.Placed.{CallsAgree, CallsFollow};

use history_standing::Stage;
use journal_entries::{Entries, EntryView, Row};
use poa_base::{Attempt, Call, Entry, WantMemory};
use poa_history::workers::arrival_in;
use std::alloc::Global;

/// Where in the journal each call arrived, in the order of the calls.
#[derive(Drop)]
pub struct Calls {
    pub places: Vec<usize>,
}

/// The table of a journal that is empty.
pub fn none(alloc: Global) -> Calls
    ensures { CallsAgree [] result.places.items }
{
    Calls {
        places: Vec::new(alloc),
    }
}

/// The entry with which a call arrived.
fn entry_of<'a>(entries: &'a Entries, places: &[usize], arrival: u64) -> Option<EntryView<'a>>
    ensures { option_map seen result ≡ placed.entry_of entries.now.items places.now arrival }
{
    match places.get(arrival as usize) {
        Some(place) => entries.get(*place),
        None => None,
    }
}

/// The call that arrived with an entry.
fn call_in(entry: Option<EntryView<'_>>) -> Option<&Call>
    ensures { option_copied result ≡ placed.call_in (option_map seen entry.entry) }
{
    match entry {
        Some(Row::Whole(Entry::Arrive { call, .. })) => Some(call),
        _ => None,
    }
}

/// The connection on which a call arrived with an entry.
fn conn_in(entry: Option<EntryView<'_>>) -> Option<u32>
    ensures { result ≡ placed.conn_in (option_map seen entry.entry) }
{
    match entry {
        Some(Row::Whole(Entry::Arrive { conn, .. })) => Some(*conn),
        _ => None,
    }
}

/// The call of an arrival.
pub fn call<'a>(entries: &'a Entries, calls: &Calls, arrival: u64) -> Option<&'a Call>
    ensures { CallsAgree (reverse entries.now.items) calls.now.places.items
        → option_copied result ≡ arrived.call_of (reverse entries.now.items) arrival }
{
    call_in(entry_of(entries, &calls.places, arrival))
}

/// The connection of an arrival.
pub fn conn(entries: &Entries, calls: &Calls, arrival: u64) -> Option<u32>
    ensures { CallsAgree (reverse entries.now.items) calls.now.places.items
        → result ≡ arrived.conn_of (reverse entries.now.items) arrival }
{
    conn_in(entry_of(entries, &calls.places, arrival))
}

/// The call that an entry admits.
pub fn call_admitted<'a>(entries: &'a Entries, calls: &Calls, entry: &Entry) -> Option<&'a Call>
    ensures { CallsAgree (reverse entries.now.items) calls.now.places.items
        → option_copied result ≡ made.call_admitted (reverse entries.now.items) entry.now }
{
    match entry {
        Entry::Admit { arrival, .. } => call(entries, calls, *arrival),
        _ => None,
    }
}

/// The call of an arrival, where there is one.
fn call_at<'a>(entries: &'a Entries, calls: &Calls, arrival: Option<u64>) -> Option<&'a Call>
    ensures { CallsAgree (reverse entries.now.items) calls.now.places.items
        → option_copied result
        ≡ elim arrival [ Some r ↦ arrived.call_of (reverse entries.now.items) r | None ↦ None ] }
{
    match arrival {
        Some(arrival) => call(entries, calls, arrival),
        None => None,
    }
}

/// The call that goes back to the queue with an entry, where one does. It is given what the entry's worker had
/// begun.
pub fn call_tried<'a>(
    entries: &'a Entries,
    calls: &Calls,
    entry: &Entry,
    stage: Stage,
) -> Option<&'a Call>
    ensures { CallsAgree (reverse entries.now.items) calls.now.places.items
        → stage ≡ made.stage_at (reverse entries.now.items) entry.now
        → option_copied result ≡ queued.call_tried (reverse entries.now.items) entry.now }
{
    match entry {
        Entry::Tried {
            answer: Attempt::Yes { .. },
            ..
        } => call_at(entries, calls, arrival_in(stage)),
        _ => None,
    }
}

/// Makes room for one call more.
pub fn reserve(calls: &mut Calls) -> Result<(), WantMemory>
    ensures same { calls.new.places.items ≡ calls.old.places.items }
    ensures room { OnOk result (vec_len calls.new.places < vec_capacity calls.new.places) }
{
    calls.places.try_reserve(1)?;
    Ok(())
}

/// Takes in an entry of the journal, by its place there. Takes no memory.
pub fn advance(entry: &Entry, place: usize, calls: &mut Calls)
    requires { placed.arrives entry.now ≡ true
        → vec_len calls.old.places < vec_capacity calls.old.places }
    ensures { CallsFollow place entry.now calls.old.places.items calls.new.places.items }
{
    if let Entry::Arrive { .. } = entry {
        calls.places.push_reserved(place);
    }
}
