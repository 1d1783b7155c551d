//! What a history of journal entries means: which adapters and activations stand after it, which requests
//! are in flight, what a worker's next entry is, which reply an arrival gets, when a history is legal, what a run was given,
//! and whose each entry is. The definitions are in `specs/`, over those of `history_standing`.
#![tactic(auto)]

pub mod calls;
mod full;
mod givens;
pub mod laws;
mod phase;
mod run;
pub mod run_laws;
pub mod same;
pub mod workers;

pub use full::Full;
pub use givens::Givens;
pub use phase::Phase;
pub use run::Run;
