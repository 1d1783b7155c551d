//! The GIOP messages of a source are served, in order, and their replies are written to a sink: `answer` does it by a run of
//! a configuration with one connection and one worker, `names` by naming contexts.
#![tactic(auto)]

mod answerer;
mod answering;
mod closing;
mod configured;
mod contexts_answerer;
mod core_answerer;
mod end;
mod names_end;
mod names_run;
mod serving;
mod source;
mod stop;
mod turns;

pub use configured::{BUILT_IN, answer_by, the_built_in_text_is_accepted};
pub use names_end::NamesEnd;
pub use names_run::names;
