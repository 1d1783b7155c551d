//! What names are bound to.
use poa_base::Ior;

/// What a component of a name is bound to in a context.
#[derive(Drop)]
pub enum Target {
    /// A reference, whatever object it is of.
    Reference(Ior),
    /// A context of this server, by its number.
    Context(u32),
}
