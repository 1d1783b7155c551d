//! What each worker has begun, and which of them gave up.
ghost use Rattle.std.specs.Prelude.{◌≡◌, ◌<◌, [], true, slice_index_or, slice_set, IfOk};
ghost use Rattle.poa_base.specs.declared.Entry.{Entry};
ghost use Rattle.history_standing.specs.declared.stage.Stage.TheVariants as stage_kinds;
ghost use Rattle.history_standing.specs.Stages as history;
ghost use Rattle.poa_history.specs.Entries as entries;
ghost use Rattle.core_arrivals.specs.Begun as tables;
ghost use Rattle.core_arrivals.specs.Begun.{WorkersAgree, WorkersTell};

use history_standing::Stage;
use poa_base::{Entry, WantMemory};
use poa_history::workers::stage_after;
use std::alloc::Global;

/// What each of the workers below 16 has begun and not ended, and which of them gave up.
#[derive(Drop)]
pub struct Workers {
    pub stages: Vec<Stage>,
    pub abandoned: Vec<bool>,
}

/// The workers before the first entry.
pub fn all_free(alloc: Global) -> Result<Workers, WantMemory>
    ensures { IfOk result (λ workers. WorkersAgree [] workers) }
{
    Ok(Workers {
        stages: vec![in alloc; Stage::Free; 16]?,
        abandoned: vec![in alloc; false; 16]?,
    })
}

/// What a worker has begun and not ended.
pub fn stage(workers: &Workers, worker: u32) -> Stage
    ensures there { result ≡ slice_index_or workers.now.stages.items worker stage_kinds.Free }
    ensures begun { WorkersTell worker workers.now (λ h. result ≡ history.stage h worker) }
{
    match workers.stages.get(worker as usize) {
        Some(stage) => *stage,
        None => Stage::Free,
    }
}

/// Whether an Abandon of the worker stands.
pub fn is_abandoned(workers: &Workers, worker: u32) -> bool
    ensures { WorkersTell worker workers.now (λ h. result ≡ history.is_abandoned h worker) }
{
    match workers.abandoned.get(worker as usize) {
        Some(abandoned) => *abandoned,
        None => false,
    }
}

/// The worker that makes an entry.
fn worker_of(entry: &Entry) -> Option<u32>
    ensures { result ≡ tables.worker_of entry.now }
{
    match entry {
        Entry::Admit { worker, .. }
        | Entry::Tried { worker, .. }
        | Entry::Incarnated { worker, .. }
        | Entry::Run { worker }
        | Entry::Done { worker }
        | Entry::TakeOut { worker, .. }
        | Entry::Etherealized { worker, .. } => Some(*worker),
        _ => None,
    }
}

/// What the worker of an entry, where a worker makes it, has begun before.
pub fn stage_at(workers: &Workers, entry: &Entry) -> Stage
    ensures { tables.WorkersTellBefore entry.now workers.now
        (λ past. result ≡ entries.stage_at past entry.now) }
{
    match worker_of(entry) {
        Some(worker) => stage(workers, worker),
        None => Stage::Free,
    }
}

/// Notes what a worker has begun.
fn set_stage(stages: &mut Vec<Stage>, worker: u32, stage: Stage)
    ensures { stages.new.items ≡ slice_set stages.old.items worker stage }
{
    if let Some(place) = stages.get_mut(worker as usize) {
        *place = stage;
    }
}

/// Notes that a worker gave up.
fn set_abandoned(flags: &mut Vec<bool>, worker: u32)
    ensures { flags.new.items ≡ slice_set flags.old.items worker true }
{
    if let Some(place) = flags.get_mut(worker as usize) {
        *place = true;
    }
}

/// What the workers have begun after an entry.
fn advance_stages(entry: &Entry, workers: &mut Workers)
    ensures stages { tables.StagesFollow entry.now workers.old.stages.items
        workers.new.stages.items }
    ensures abandoned { workers.new.abandoned.items ≡ workers.old.abandoned.items }
{
    if let Some(worker) = worker_of(entry) {
        let begun = stage_after(entry, worker, stage(workers, worker));
        set_stage(&mut workers.stages, worker, begun);
    }
}

/// Which workers gave up after an entry.
fn advance_abandoned(entry: &Entry, flags: &mut Vec<bool>)
    ensures { tables.FlagsFollow entry.now flags.old.items flags.new.items }
{
    if let Entry::Abandon { worker } = entry {
        set_abandoned(flags, *worker);
    }
}

/// Takes in an entry of the journal. Takes no memory.
pub fn advance(entry: &Entry, workers: &mut Workers)
    ensures { tables.WorkersFollow entry.now workers.old workers.new }
{
    advance_stages(entry, workers);
    advance_abandoned(entry, &mut workers.abandoned);
}
