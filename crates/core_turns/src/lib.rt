//! What is decided, given what stands and what is set: the verdict on a call, how what a worker has begun
//! goes on, and the removal that is due. Nothing here asks a history.
#![tactic(auto)]

mod answered;
mod commands;
mod facts;
mod known;
mod looks;
mod references;
mod referring;
mod rules;
mod template;
mod turns;
mod verdicts;

pub use facts::{facts_of, slot_of};
pub use known::Known;
pub use looks::{Look, look_at};
pub use rules::brought;
pub use turns::{attempt, going_on, removal};
pub use verdicts::verdict_on;
