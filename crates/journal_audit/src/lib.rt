//! An audit of a journal: whether each of its entries may follow the ones before it, and if not, which is the first that
//! may not, what rule it breaks, and what would have been allowed there. Each entry is compared with what the definitions
//! allow (`poa_history`), as the tables of a run tell it, and then taken into that run. So the run of a legal journal keeps
//! all that legal histories keep. `specs/Auditing.antt` says what an audit finds.
//!
//! With the bytes of a connection beside it, an audit tells whether they are what its journal says of that connection
//! (`specs/Matching.antt`): the calls of what was read arrived in their order and no others, and the replies that were given
//! are what was written.
#![tactic(auto)]

mod auditor;
mod breach;
mod calls;
mod connections;
mod finding;
mod front;
mod judged;
mod judging;
mod laws;
mod lines;
mod link;
mod listener;
mod matched;
mod onlooker;
mod refusal;
mod report;
mod rule;
mod same_call;
mod same_command;
mod text;
mod watch;
mod workers;
mod written;

pub use auditor::Auditor;
pub use finding::Audit;
pub use laws::{one_bad_entry_is_the_first, one_bad_entry_spoils_all};
pub use link::Link;
pub use matched::Matched;
pub use refusal::Refusal;
pub use report::Report;
pub use rule::Rule;
pub use text::audit_text;
