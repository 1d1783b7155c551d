//! The run of the server on a core: its pieces are started, each in a thread of its own, joined, and put together. A piece is a
//! lane that serves the links of its door, the administrators' door, or a worker; what it promises is said on its seat, so
//! that the promises can be put together once the seats are joined. What a run comes to is said on the journal of the core
//! that it gives back, in `specs/Served.antt`.
#![tactic(auto)]

mod aiding;
mod attending;
mod doors;
mod joining;
mod lanes;
mod means;
mod outcome;
mod piece;
mod ran;
mod received;
mod receiving;
mod reception;
mod refusing;
mod running;
mod server;
mod serving;
mod shutting;
mod staff;
mod starting;
mod task;
mod working;

pub use doors::Doors;
pub use means::Means;
pub use outcome::{Outcome, Want};
pub use piece::Piece;
pub use ran::{PieceEnd, Ran};
pub use refusing::earlier;
pub use running::{Finished, Run, serve_core};
pub use task::Task;
