//! The entries of a run's journal, kept in rows: the frequent ones in 16 bytes, the others whole in a list of their own.
//! Both lists grow chunk by chunk, so that nothing that is kept is copied again. `specs/Rows.antt` says which entry a row
//! stands for.
#![tactic(auto)]

mod chunks;
mod entries;
mod row;

pub use entries::Entries;
pub use row::{EntryView, Row};
