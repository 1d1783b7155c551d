//! The rules of a legal history.

/// The rule that an entry breaks which isn't legal.
#[derive(Clone, Copy, Drop)]
pub enum Rule {
    /// Who enters, what arrives or fills the run, and who leaves.
    Connection,
    /// Which reply a connection is given next.
    Collecting,
    /// Which turn is a worker's next.
    Turn,
    /// There are 16 workers, and one that gave the run up makes no entry more.
    Worker,
}
