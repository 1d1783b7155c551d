//! What the session of a connection is: which calls its peer's bytes hold, which of them the history says arrived, which
//! replies it says were given, and what was written, by the way in which the session ended. A history is taken in the
//! journal's order here, the oldest entry first. These definitions are no code's: they say the same of every way to read, to
//! wait and to write.
//!
//! By them a peer is heard piece by piece: the calls that stand whole, however its bytes are cut, and where its input stops.
//! A client sends messages of GIOP, an administrator lines. A reply that fits a call which a message made can be written, so
//! nobody has to ask whether it can.
#![tactic(auto)]

mod ear;
mod input;
pub mod laws;
mod line_cutter;
mod peer;
mod putting;
pub mod reply_laws;
mod telling;
mod told;

pub use ear::Ear;
pub use input::Input;
pub use line_cutter::LineCutter;
pub use peer::Peer;
pub use putting::put_reply;
pub use telling::tell;
pub use told::Told;
