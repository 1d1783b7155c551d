//! The doors of a run.

/// Where administrators come in, and where clients do.
#[derive(Drop)]
pub struct Doors<A> {
    pub admin: A,
    pub lanes: Vec<A>,
}
