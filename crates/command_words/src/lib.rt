//! What the words of a command line ask for. The first word names the command, and clap reads the ones behind it, by
//! a command of its own for each first word, with no options, no help and no version. The words of `serve`,
//! `call`, `audit` and `explain`, which have options, are read by hand.
#![tactic(auto)]

mod asking;
mod audit_words;
mod calling;
mod calls_asked;
mod command;
mod explain_words;
mod fault;
mod link_words;
mod numbers;
mod optioned;
mod parsing;
mod place;
mod plan;
mod reading;
mod result_kind;
mod server;
mod serving;
mod setting;
mod settings;
mod values;
mod words;

pub use audit_words::AuditWords;
pub use calling::{CallWords, call_words};
pub use calls_asked::CallsAsked;
pub use command::Command;
pub use explain_words::ExplainWords;
pub use fault::WordsFault;
pub use link_words::LinkWords;
pub use plan::{Plan, plan_of};
pub use reading::command_of;
pub use result_kind::ResultKind;
pub use server::ServeWords;
pub use serving::serve_words;
