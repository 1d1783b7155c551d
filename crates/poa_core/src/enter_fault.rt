//! Why a connection can't enter.

/// The refusal of a connection.
#[derive(Clone, Copy, Drop)]
pub enum EnterFault {
    /// The run had 4,000,000 connections, with so many arrivals and bytes of them.
    Limit {
        conns: u64,
        arrivals: u64,
        bytes: u64,
    },
    WantMemory,
}
