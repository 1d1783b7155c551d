//! The servants and the states stored for those to come.
use poa_base::Store;
use servant_kinds::Servant;
use std::collections::BTreeMap;

/// The servants as they are, and the states stored for servants to come.
#[derive(Drop)]
pub struct Servants {
    /// The configured ones, each at its number.
    pub configured: Vec<Servant>,
    /// The fresh ones that weren't etherealized, each by the number of its activation.
    pub fresh: BTreeMap<u32, Servant>,
    /// The states of those that were, each by the path of its adapter and its object id.
    pub store: Store,
}
