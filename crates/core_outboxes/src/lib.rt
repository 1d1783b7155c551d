//! The tables that the adapter's core keeps of calls: those that are owed a reply, with what each command that
//! waits is waiting for, and the decided replies that aren't collected, in an outbox of each connection; and the reply that
//! an entry fixes for the arrival that it decides.
#![tactic(auto)]

mod advancing;
mod asking;
mod decided;
mod decision;
mod desk;
mod endings;
mod exceptions;
mod filed;
mod forwards;
mod fresh;
mod outbox;
mod outboxes;
mod owing;
mod rows;
mod tried;
mod wait;

pub use advancing::advance;
pub use asking::{asks, head_of};
pub use decided::{decision_of, may_decide};
pub use decision::Decision;
pub use desk::Desk;
pub use endings::{good, reply_admitted, reply_incarnated};
pub use exceptions::{number_of, raised_to};
pub use filed::Filed;
pub use forwards::forwarded_to;
pub use fresh::Fresh;
pub use outbox::Outbox;
pub use outboxes::Outboxes;
pub use owing::Owing;
pub use tried::reply_tried;
pub use wait::{Ordered, Wait, ordered_by, wait_by};
