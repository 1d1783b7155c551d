//! Addresses.
use poa_base::Endpoint;

/// Where a server listens for IIOP 1.`minor`.
#[derive(Drop)]
pub struct Address {
    pub minor: u8,
    pub endpoint: Endpoint,
}
