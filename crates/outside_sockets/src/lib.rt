//! Links over sockets, the doors at which they come in, the connector that opens them, and a gate that takes its time. Each is proved to count its
//! faults; what a socket gives, takes and hears is the system's, and no clause speaks of it.
#![tactic(auto)]

mod ears;
mod listening;
mod mio_connector;
mod mio_door;
mod mio_link;
mod newcomer;
mod owed;
mod silent_ones;
mod socket;
mod traffic;
mod waiting_gate;

pub use ears::Ears;
pub use listening::listen;
pub use mio_connector::MioConnector;
pub use mio_door::MioDoor;
pub use mio_link::MioLink;
pub use traffic::Traffic;
pub use waiting_gate::WaitingGate;
