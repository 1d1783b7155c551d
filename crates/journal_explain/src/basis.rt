//! On what it rests that a call is held or decided.
use poa_base::ManagerState;

/// On what it rests that a call is held or decided, as it stood.
#[derive(Clone, Copy, Drop)]
pub enum Basis {
    /// The state of the manager of this number: 0 is `root`, and the configured ones follow.
    Manager { manager: u32, state: ManagerState },
    /// The default servant of an adapter.
    DefaultServant,
    /// An endpoint.
    Endpoint,
}
