//! What stands, what is set, and the servants: changed together by an entry of a worker, all of it or nothing. What is
//! kept of what stands, where activations that are over are forgotten, answers as what stands by the history.
//!
//! The servants stand in their states: those of the configuration, and the fresh ones that a servant activator brought; what
//! is etherealized of these is stored.
#![tactic(auto)]

mod acting;
mod advancing;
mod bringing;
mod coming;
mod etherealizing;
mod kinds;
mod laws;
pub mod servant_laws;
mod servants;
mod servants_follow;
mod serving;
mod starting;
mod state;

pub use acting::act;
pub use advancing::advance;
pub use bringing::{bring, incarnate};
pub use coming::Coming;
pub use etherealizing::etherealize;
pub use kinds::{kind_brought, restored};
pub use laws::what_is_kept_answers;
pub use servants::Servants;
pub use serving::servant_by;
pub use state::{State, opening};
