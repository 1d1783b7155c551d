//! The first entry that isn't legal.
use crate::rule::Rule;
use poa_base::Entry;

/// The first entry that isn't legal.
#[derive(Drop)]
pub struct Refusal {
    /// How many entries stand before it.
    pub entry: u64,
    /// The rule that it breaks.
    pub rule: Rule,
    /// The one entry that would have been allowed in its place, where there is one.
    pub due: Option<Entry>,
}
