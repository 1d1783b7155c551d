//! The trails of the calls that are asked for.
ghost use Rattle.std.specs.Prelude.{◌≡◌, Some, OnOk};
ghost use Rattle.std.specs.List.{AllZip};
ghost use Rattle.history_standing.specs.Arrivals.{arrivals};
ghost use Rattle.history_standing.specs.Keys.{key_in};
ghost use Rattle.journal_explain.specs.Adapters as adapter_of;
ghost use Rattle.journal_explain.specs.Serving.{server_in};
ghost use Rattle.journal_explain.specs.Watching.{Begins, BeginsOne, Gets, IsServed, Looks, Notes};

use crate::adapter::adapter_at;
use crate::call_name::CallName;
use crate::facing::wait_of;
use crate::next::Next;
use crate::origins::Origins;
use crate::ruling::{holder, ruler};
use crate::selection::Selection;
use crate::server::{ended, ends, server_with, serves};
use crate::telling::{event_of, speaks};
use crate::trail::Trail;
use core_outboxes::Filed;
use core_run::Run;
use poa_base::{Call, Entry, TryClone, WantMemory};
use std::alloc::Global;

/// Begins the trail of the call that arrives with the next entry of a run, at this place, where it is asked for.
pub(crate) fn begin(
    alloc: Global,
    asked: &Selection,
    run: &Run,
    place: u64,
    entry: &Entry,
    trails: &mut Vec<Trail>,
) -> Result<(), WantMemory>
    ensures { OnOk result (Begins asked.now run.now place entry.now trails.old.items trails.new.items) }
{
    if let Entry::Arrive { conn, call, .. } = entry {
        let name = CallName::of(run.arrivals(), *conn, call);
        if asked.asks(name, place) {
            return begin_one(alloc, run, name, call, trails);
        }
    }
    Ok(())
}

/// Begins the trail of the call that arrives next in a run under this name.
#[inline(never)]
fn begin_one(
    alloc: Global,
    run: &Run,
    name: CallName,
    call: &Call,
    trails: &mut Vec<Trail>,
) -> Result<(), WantMemory>
    ensures { OnOk result (BeginsOne name call.now
        (adapter_of.adapter_at run.now.config run.now.run run.now.history (key_in (Some call.now)))
        (server_in run.now.history (arrivals run.now.history)) trails.old.items trails.new.items) }
{
    run.keeps_laws();
    let adapter = adapter_at(alloc, run, call)?;
    let call = call.try_clone()?;
    Ok(trails.push(Trail::new(alloc, name, call, adapter))?)
}

/// Notes what the next entry of a run, where it may follow, is to each call.
pub(crate) fn note_each(
    alloc: Global,
    run: &Run,
    next: &Next<'_>,
    origins: &Origins,
    trails: &mut Vec<Trail>,
) -> Result<(), WantMemory>
    ensures { OnOk result (AllZip
        (Notes run.now next.now.entry.now next.now.place next.now.begun origins.now)
        trails.old.items trails.new.items) }
{
    for trail in trails.iter_mut() {
        note(alloc, run, next, origins, trail)?;
    }
    Ok(())
}

fn note(
    alloc: Global,
    run: &Run,
    next: &Next<'_>,
    origins: &Origins,
    trail: &mut Trail,
) -> Result<(), WantMemory>
    ensures { OnOk result
        (Notes run.now next.now.entry.now next.now.place next.now.begun origins.now
        trail.old trail.new) }
{
    if speaks(run, next.entry, trail.name.arrival) {
        return note_spoken(alloc, run, next, origins, trail);
    }
    serve(run, next.entry, trail);
    Ok(())
}

/// The same of an entry that speaks of the call. It stands by itself, so that of the others nothing is got ready for it.
#[inline(never)]
fn note_spoken(
    alloc: Global,
    run: &Run,
    next: &Next<'_>,
    origins: &Origins,
    trail: &mut Trail,
) -> Result<(), WantMemory>
    ensures { OnOk result
        (Notes run.now next.now.entry.now next.now.place next.now.begun origins.now
        trail.old trail.new) }
{
    let told = event_of(alloc, run, next, trail.name.arrival)?;
    let setting = ruler(alloc, run, next.entry, trail.name.arrival)?;
    let tenure = origins.told(run, setting)?;
    serve(run, next.entry, trail);
    trail.note(next.place, told, tenure)
}

/// Notes which activation serves a call with the next entry of a run, and whether it is active before it.
fn serve(run: &Run, entry: &Entry, trail: &mut Trail)
    ensures { IsServed run.now entry.now trail.old trail.new }
{
    let server = server_with(entry, trail.name.arrival, trail.server);
    trail.active = serves(run, server);
    trail.server = server;
}

/// Notes the reply that was collected with the entry at this place, if one was.
pub(crate) fn give_each(
    place: u64,
    given: &Option<Filed>,
    trails: &mut Vec<Trail>,
) -> Result<(), WantMemory>
    ensures { OnOk result (AllZip (Gets given.now place) trails.old.items trails.new.items) }
{
    for trail in trails.iter_mut() {
        trail.get(place, given)?;
    }
    Ok(())
}

/// Notes whether the activation that serves each call ended with the entry at this place, and what the call waits for in a run
/// behind it.
pub(crate) fn look_at_each(
    alloc: Global,
    run: &Run,
    place: u64,
    origins: &Origins,
    trails: &mut Vec<Trail>,
) -> Result<(), WantMemory>
    ensures { OnOk result
        (AllZip (Looks run.now place origins.now) trails.old.items trails.new.items) }
{
    for trail in trails.iter_mut() {
        look(alloc, run, place, origins, trail)?;
    }
    Ok(())
}

fn look(
    alloc: Global,
    run: &Run,
    place: u64,
    origins: &Origins,
    trail: &mut Trail,
) -> Result<(), WantMemory>
    ensures { OnOk result (Looks run.now place origins.now trail.old trail.new) }
{
    let wait = wait_of(alloc, run, trail.name.arrival)?;
    if wait == trail.wait && !ends(run, trail.server, trail.active) {
        return Ok(());
    }
    look_closer(alloc, run, place, origins, trail)
}

/// The same where something changed.
#[inline(never)]
fn look_closer(
    alloc: Global,
    run: &Run,
    place: u64,
    origins: &Origins,
    trail: &mut Trail,
) -> Result<(), WantMemory>
    ensures { OnOk result (Looks run.now place origins.now trail.old trail.new) }
{
    let ends = ended(run, trail.server, trail.active);
    trail.note(place, ends, None)?;
    let wait = wait_of(alloc, run, trail.name.arrival)?;
    let tenure = origins.told(run, holder(wait))?;
    trail.wait_for(place, wait, tenure)
}
