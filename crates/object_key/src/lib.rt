//! Object keys: the octets by which a reference and a request name an object. To the ORB a key is
//! opaque (CORBA 3.3 Part 2, 7.6.2 and 9.7.2); this crate fixes what this server's keys say. There are two forms: the second is
//! for persistent keys with a tag. Each key has exactly one spelling, which `write_key` writes. `view_key` sees a key where it is spelled,
//! `read_key` copies what that sees, and neither reads anything else.
#![tactic(auto)]

mod fault;
mod key_lifespan;
mod key_view;
mod law;
mod path_view;
mod reading;
mod unread;
mod viewing;
mod writing;

pub use fault::{BadKey, KeyFault};
pub use key_view::KeyView;
pub use law::one_spelling;
pub use path_view::PathView;
pub use reading::read_key;
pub use viewing::view_key;
pub use writing::write_key;
