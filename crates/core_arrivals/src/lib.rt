//! What a journal says of arrivals and workers, kept as tables in place of walks over it: where each call
//! arrived, which arrivals wait to be admitted and which came when too many waited, what each worker has
//! begun, and what was counted; and by them a worker's next entry. Each table takes in the journal's entries one by one.
#![tactic(auto)]

pub mod calls;
mod moves;
mod ordered;
mod queries;
pub mod queue;
mod tally;
pub mod workers;

pub use calls::Calls;
pub use moves::{advance, is_shutdown};
pub use queries::{connections, filled, is_open, is_run_over, is_taken, phase_of};
pub use queue::Queue;
pub use tally::{Tally, none, reserve};
pub use workers::Workers;
