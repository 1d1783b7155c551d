//! The servants: what they keep, which operations they have and how each ends. There are four kinds,
//! a register, a log, an echo, and one that only fails; `docs/FORMATS.md` has their IDL.
#![tactic(auto)]

mod argument;
mod echo;
mod exception;
pub mod laws;
mod log;
mod object;
mod register;
mod servant;
mod type_ids;

pub use poa_base::WantMemory;
pub use servant::Servant;
pub use type_ids::type_id;
