//! The verdict on a request or a locate: the facts that it asks, the table that gives it, in `specs/` as the
//! one definition that every other crate cites, and the verdict computed from its facts.
#![tactic(auto)]

mod facts;
mod found;
mod laws;
mod missing;
mod refusals;
mod table;

pub use facts::{Choice, Facts, KeyFact, Located, MapFact, WalkFact};
pub use laws::{locates_run_nothing, servants_run_where_active};
pub use table::choose;
