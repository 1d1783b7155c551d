//! Messages of GIOP (CORBA 3.3 Part 2, 9.4) that a server reads: the call that a message makes, seen where it lies or
//! with a copy of its parts; and the bytes of the Request that makes it.
#![tactic(auto)]

mod ask;
mod contexts;
mod fault;
mod incoming;
pub mod laws;
mod locate;
mod opening;
mod reading;
mod request;
mod seen;
mod target;
mod view_fault;
mod viewing;

pub use ask::write_request;
pub use contexts::pass_counted;
pub use fault::MsgFault;
pub use incoming::Incoming;
pub use poa_base::WantMemory;
pub use reading::read_call;
pub use seen::Seen;
pub use view_fault::ViewFault;
pub use viewing::view_call;
