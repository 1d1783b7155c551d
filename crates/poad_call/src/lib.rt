//! `call`: a call of an object of any CORBA server, and what is printed of how it ended.
#![tactic(auto)]

mod asked;
mod calling;
mod line;
mod result;

pub use calling::run_call;
