//! What stands after a history: the adapters, the requests and trials in flight, and the activations, which stand in the
//! active object map. One entry at a time changes it in place, all of it or nothing, and an entry with which something ends
//! takes no memory. What is asked of a history, and of what stands, is here too.
#![tactic(auto)]

pub mod asked_commands;
mod beginning;
mod changes;
mod commands;
mod ending;
pub mod ends;
mod flying;
mod forgetting;
pub mod ids;
pub mod keys;
pub mod laws;
mod lives;
pub mod orders;
pub mod rules;
pub mod searches;
mod serving;
mod settling;
mod standing;
mod touched;

pub use beginning::opening;
pub use changes::{advance, advance_kept, land, standing_of};
pub use serving::serve;
pub use standing::Standing;
