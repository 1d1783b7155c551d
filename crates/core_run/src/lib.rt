//! A run of the adapter: `Run` takes each entry that may follow what has happened, with all that it brings or not at
//! all, and says which may follow. What it keeps beside its journal agrees with it: what stands, what is set and the
//! servants; where each call arrived, which calls wait and what holds them, what each worker has begun, and what was
//! counted; who is owed a reply, and which are decided.
#![tactic(auto)]

mod abandoning;
mod admitting;
mod arriving;
mod beginning;
mod brought;
mod collecting;
mod connecting;
mod freeing;
mod inside;
mod noting;
mod quieting;
mod room;
mod run;
mod running;
mod serving;
mod stepping;
mod tables;
mod taking;
mod turning;

pub use core_outboxes::{Desk, Fresh};
pub use core_state::State;
pub use freeing::freed_by;
pub use journal_entries::Entries;
pub use run::Run;
pub use tables::Tables;
