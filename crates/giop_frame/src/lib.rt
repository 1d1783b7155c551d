//! The messages of a stream of GIOP 1.0, 1.1 and 1.2, whichever way its bytes are cut into pieces: each message of
//! one part as it stands, each fragmented one of version 1.2 joined, then what is left over or the first bad place.
#![tactic(auto)]

mod framer;
mod frames;
mod header;
mod laws;
mod message;
mod next;
mod open_messages;
mod opened;
mod rules;
mod unread;
mod why;

pub use framer::Framer;
pub use frames::{Frames, drain, frame};
pub use laws::{a_framer_goes_on, each_text_has_one_stream};
pub use message::Message;
pub use next::Next;
pub use poa_base::WantMemory;
pub use why::Why;
