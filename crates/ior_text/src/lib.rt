//! Interoperable object references and their IIOP profiles (CORBA 3.3 Part 2, 7.6.2 and 9.7.2): read from fields, or seen
//! where they lie in a message; and as text, `IOR:` and the hexadecimal of an encapsulation (7.6.9), read with a fault that
//! has its place, and written in one form. A profile is read whole, with its components, and written of what was read. The reference of an object of this server has its type id, and one profile with
//! the server's endpoint and the object's key.
#![tactic(auto)]

mod address;
mod address_reading;
mod address_view;
mod body;
mod components;
mod corbaloc_fault;
mod corbaloc_law;
mod corbaloc_profile;
mod corbaloc_reading;
mod corbaloc_writing;
mod cut;
mod encapsulation;
mod endpoint_view;
mod fault;
mod key;
mod key_reading;
mod key_writing;
mod law;
mod located;
mod location;
mod parts;
mod parts_writing;
mod port;
mod profile;
mod reading;
mod reference;
mod reference_fields;
mod seen_encapsulation;
mod seen_key;
mod seen_profile;
mod seen_reference;
mod writing;
mod written_encapsulation;

pub use address::Address;
pub use body::{ProfileBody, read_body};
pub use cdr_core::PartFault;
pub use corbaloc_fault::LocFault;
pub use corbaloc_law::one_text;
pub use corbaloc_reading::read_corbaloc;
pub use corbaloc_writing::write_corbaloc;
pub use fault::IorFault;
pub use key::{key_of, read_key};
pub use law::one_answer;
pub use location::Location;
pub use parts::{ProfileParts, read_parts};
pub use parts_writing::write_parts;
pub use poa_base::WantMemory;
pub use profile::write_profile;
pub use reading::read_ior;
pub use reference_fields::{read_profile, read_reference};
pub use seen_key::view_key;
pub use seen_profile::{ProfileView, view_profile};
pub use seen_reference::view_reference;
pub use writing::write_ior;
pub use written_encapsulation::enter;
