//! The commands of the program: `run_words` does what the words of a command line say, over a source, a
//! sink and files, and answers how it ended. `answer` serves the GIOP messages of the source, in order, by the
//! adapter of a configuration. `replay` plays a script on one, and `load` a drawn one. `show` prints a reference, and `check`
//! and `iors` print what a configuration has.
//!
//! `run_serve` does `serve`: it runs the server on the doors that it is handed, and puts what is stored and the
//! journal where the words ask for it.
#![tactic(auto)]

mod beginning;
mod ending;
mod naming;
mod playing;
mod putting;
mod reopening;
mod run;
mod seeking;
mod serve;
mod served;

pub use reopening::a_run_opens_with_what_was_put;
pub use run::run_words;
pub use serve::run_serve;
pub use serve_run::{Doors, Means};
pub use served::Served;
