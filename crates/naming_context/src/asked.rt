//! What a context is asked.
use crate::component::Component;
use poa_base::{Bytes, Ior, Items};

/// What a context is asked: an operation with its arguments.
#[derive(Drop)]
pub enum Asked {
    Bind { name: Items<Component>, object: Ior },
    Rebind { name: Items<Component>, object: Ior },
    Resolve { name: Items<Component> },
    Unbind { name: Items<Component> },
    BindNewContext { name: Items<Component> },
    IsA { type_id: Bytes },
    NonExistent,
}
