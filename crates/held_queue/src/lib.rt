//! The requests and locates that wait, by what holds them. A call is asked again only after an entry that may free
//! what holds it; of the requests that take their turn in an adapter only the first is asked.
//!
//! The laws say why that is enough: what holds a call, which entries can end that, and that it stays held else.
#![tactic(auto)]

mod freed;
mod grip;
mod hold;
pub mod laws;
mod numbers;
mod queue;
mod row;
mod rows;

pub use freed::Freed;
pub use grip::Grip;
pub use hold::Hold;
pub use numbers::Numbers;
pub use queue::HeldQueue;
pub use row::Row;
