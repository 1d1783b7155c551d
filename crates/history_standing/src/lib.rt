//! What is read off a list of journal entries, and of what stands behind it: arrivals, what each worker has begun, what a
//! command has set, which adapters and activations have ended, the rule that serves an id, and what a command is answered.
//! The adapters that stand are a tree, in one list of nodes in the order of their creation. The definitions are in `specs/`;
//! the code here has the data that they speak of, and the walk along the path of a key.
#![tactic(auto)]

mod activation;
mod flight;
pub mod flights;
mod found;
pub mod laws;
mod node;
pub mod nodes;
pub mod paths;
mod reference;
mod stage;
pub mod templates;
pub mod walks;

pub use activation::{Activation, Phase};
pub use flight::Flight;
pub use found::Found;
pub use node::Node;
pub use reference::write_reference;
pub use stage::Stage;
