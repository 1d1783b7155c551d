//! Messages of GIOP (CORBA 3.3 Part 2, 9.4) that a server writes: the bytes of a reply, and of the messages that end
//! a connection. What every written message is made of, its header and the values in it, stands here too.
#![tactic(auto)]

mod closing;
mod exception;
mod field;
pub mod kind;
mod outgoing;
mod reply;
mod status;

pub use closing::{write_closing, write_error};
pub use field::put_datum;
pub use outgoing::framed;
pub use poa_base::WantMemory;
pub use reply::{put_reply, write_reply};
