//! The session of a connection: it enters, reads what its peer sends, lets each call arrive, and writes each reply that is
//! decided, until one of the two sides ends it; then it leaves. What it is, by the way in which it ended, is in the specs
//! of `session_laws`; that it was so, by the seat and the link, in `specs/Served.antt`.
#![tactic(auto)]

mod buffers;
mod closing;
mod collecting;
mod connection;
mod conversing;
mod exchanged;
mod exchanging;
mod flow;
mod listening;
mod paying;
mod progress;
mod replies;
mod rounds;
mod serving;
mod taking_in;

pub use serving::{serve_admin, serve_link};
