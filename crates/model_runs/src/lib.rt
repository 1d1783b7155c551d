//! What the programs that compute from the definitions play: known scripts, and a load that is compared with what `load`
//! makes of it on the core.
#![tactic(auto)]

mod fault;
mod load;
mod scripts;

pub use fault::Fault;
pub use load::compare;
pub use scripts::play_all;
