//! The scripts of `poad replay`: the steps of a text, or the number of its first line that is outside the grammar.
//!
//! A script is lines. `specs/Reading.antt` says which words each kind of line has, `specs/Connections.antt` which lines
//! may stand behind one another on one connection, and `specs/Whole.antt` what script a text gives.
#![tactic(auto)]

mod argument;
mod connections;
mod edges;
mod fault;
mod fixed;
mod invocation;
mod line;
mod role;
mod script;
mod step;
mod traffic;

pub use argument::datum;
pub use fault::ScriptFault;
pub use script::{Script, read_script};
pub use step::{ScriptStep, Step};
