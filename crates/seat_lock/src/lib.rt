//! The lock under which the running server keeps its one history. Threads take the value in the order of their tickets, each through a seat of its own; a seat knows
//! how far it has seen the history and which entries are its own, so what one thread did can be said of the history that all of them made.
#![tactic(auto)]

mod bells;
mod chronicle;
mod law;
mod lock;
mod plays;
mod view;
mod waiting;
mod words;

pub use chronicle::Chronicle;
pub use law::has_its_parts;
pub use lock::{Seat, SeatLock};
pub use std::alloc::AllocError as WantMemory;
pub use view::{Stage, View};
pub use words::BELLS;
