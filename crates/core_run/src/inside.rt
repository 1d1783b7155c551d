//! What the core keeps of its run.
use crate::tables::Tables;
use core_outboxes::Desk;
use core_state::State;
use journal_entries::Entries;
use poa_base::{Config, Store};
use std::alloc::Global;

/// The givens of a run, its journal, and what the journal comes to, so that nobody has to go over it again.
#[derive(Drop)]
pub struct Inside {
    pub alloc: Global,
    pub config: Config,
    pub run: u32,
    pub limit: u64,
    /// What was stored when the run began.
    pub opening: Store,
    /// The journal, the oldest entry first.
    pub entries: Entries,
    /// Where each call arrived, which wait, what each worker has begun, and what was counted.
    pub tables: Tables,
    /// Who is owed a reply, and which are decided.
    pub desk: Desk,
    /// What stands, what is set, and the servants.
    pub state: State,
}
