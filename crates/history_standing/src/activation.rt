//! An activation.
use poa_base::{Oid, Path, Sid};

/// How far an activation has come.
#[derive(Clone, Copy, PartialEq, Eq, Drop)]
pub enum Phase {
    /// Its servant is being incarnated.
    Begun,
    /// It has this servant.
    Complete(Sid),
    /// Its incarnation brought no servant.
    Void,
}

/// An activation that was begun: the binding of an object id of one adapter to a servant. CORBA 3.3 Part 1,
/// section 15.2.1.
#[derive(Drop)]
pub struct Activation {
    /// Activations are numbered in the order in which they were begun.
    pub number: u32,
    /// The number and the path of its adapter.
    pub adapter: u32,
    pub path: Path,
    pub oid: Oid,
    pub phase: Phase,
    /// It was deactivated, or its adapter destroyed, or its manager deactivated so that it etherealizes.
    pub ending: bool,
    /// The first of these was a destroy that doesn't etherealize.
    pub quiet: bool,
    /// It isn't in the active object map any more.
    pub out: bool,
    /// Told to the servant manager: whether an etherealizing destroy or deactivation of the manager stood
    /// before it was taken out, and whether its servant was in the map by another activation then.
    pub cleanup: bool,
    pub remaining: bool,
    /// Its servant was etherealized.
    pub etherealized: bool,
}
