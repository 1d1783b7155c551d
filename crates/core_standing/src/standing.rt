//! What stands after a history.
ghost use Rattle.std.specs.Prelude.{◌≡◌, ◌<◌, length, IfOk};
ghost use Rattle.core_standing.specs.Seen.{seen};

use active_map::Activations;
use history_standing::{Flight, Node};
use poa_base::WantMemory;

/// What stands after a history.
#[derive(Drop)]
pub struct Standing {
    /// The adapters that were created and aren't gone, in the order of their creation.
    pub nodes: Vec<Node>,
    /// How many adapters were created.
    pub count: u32,
    /// How many system-made object ids were made.
    pub made: u32,
    /// The requests and trials in flight.
    pub flights: Vec<Flight>,
    /// The activations that were begun.
    pub activations: Activations,
}

impl Standing {
    /// How many activations were begun, which numbers the next one. Fails where it has more than 32 bits.
    pub fn begun(&self) -> Result<u32, WantMemory>
        ensures begun { IfOk result (λ begun. begun ≡ length (seen self.now).activations) }
        ensures few { IfOk result (λ begun. begun < 4294967296) }
    {
        self.activations.begun()
    }
}
