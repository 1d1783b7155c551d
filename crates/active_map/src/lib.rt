//! The active object map (CORBA 3.3 Part 1, section 15.3.8): the activations that were begun, in a table by their numbers with an
//! index by adapter and object id, changed in place; and what is asked of an activation, of the requests in flight and of
//! what the configuration says of a path.
#![tactic(auto)]

pub mod activation;
mod activations;
mod adapters;
mod by_id;
mod change;
mod changing;
mod ending;
mod leaving;
pub mod over;
mod passing;
mod rows;

pub use activations::Activations;
