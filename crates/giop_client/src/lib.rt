//! A client of GIOP (CORBA 3.3 Part 2, chapter 9): a request to the object of a reference, over links that a connector
//! opens; LOCATION_FORWARD is followed, one reference after the other; and the end is said exactly.
#![tactic(auto)]

mod body_view;
mod call_end;
mod followed;
mod following;
mod hearing;
mod hop;
mod hop_reading;
mod laws;
mod listening;
mod reply;
mod reply_kind;
mod request;
mod step;
mod target;
mod visiting;

pub use call_end::CallEnd;
pub use followed::Followed;
pub use following::{MOST_HOPS, follow};
pub use hearing::READ_LIMIT;
pub use hop::Hop;
pub use laws::{links_are_a_front_of_the_path, one_hop};
pub use listening::MOST_QUIETS;
pub use target::Target;
