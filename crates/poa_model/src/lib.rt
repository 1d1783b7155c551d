//! The definitions of histories, computed plainly and slowly: the verdict on an arrival, the next entry of a worker, whether
//! the condition of a command that waits holds; which arrivals are decided, their replies, and the next of a connection; and
//! the first entry of a history that isn't legal. They keep nothing: each asks the whole history again. Tests compare with
//! them.
#![tactic(auto)]

mod acting;
mod arriving;
mod crowded;
mod deciding;
mod entries;
mod follow;
mod kept;
pub mod laws;
mod legal;
pub mod legal_laws;
mod next_reply;
mod owing;
mod reply;
mod servant_state;
mod servants;
mod set;
mod settling;
mod stored_state;
mod turns;
mod verdicts;

pub use deciding::decided;
pub use entries::kept_of;
pub use follow::may_follow;
pub use kept::{Kept, stored_in};
pub use legal::first_illegal;
pub use next_reply::slow_next_reply;
pub use owing::slow_owed;
pub use poa_history::Run;
pub use reply::slow_reply;
pub use servant_state::ServantState;
pub use settling::settles;
pub use stored_state::StoredState;
pub use turns::slow_next;
pub use verdicts::slow_verdict;
