//! An adapter that stands.
use poa_base::Path;

/// An adapter that was created and isn't gone: CORBA 3.3 Part 1, section 15.3.8.
#[derive(Drop)]
pub struct Node {
    /// Adapters are numbered in the order in which they were created. The root has 0.
    pub number: u32,
    pub path: Path,
    /// It or an ancestor was destroyed.
    pub dying: bool,
}
