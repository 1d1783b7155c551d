//! Locations.
use crate::address::Address;
use poa_base::{Bytes, Items};

/// Where an object is found: the addresses of its server, and its object key.
#[derive(Drop)]
pub struct Location {
    pub addresses: Items<Address>,
    pub key: Bytes,
}
