//! `audit`: the journal in a file is audited as one of a run of the configuration in another, and what is found is printed; and
//! so is whether the bytes of a link, in two files more, are what it says of that connection.
//! `explain`: calls of such a journal, with what happened to each; or the activations of an object; or what came of all calls;
//! or a picture of the run.
#![tactic(auto)]

mod adapter_text;
mod auditing;
mod call_text;
mod explaining;
mod linking;
mod object_text;
mod picture;
mod printing;
mod reply_text;
mod row_text;
mod servant_text;
mod stored_text;
mod story;
mod table;
mod tally;
mod tenure_text;
mod verdict_text;

pub use auditing::audit_files;
pub use explaining::explain_files;
