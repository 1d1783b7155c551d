//! What an audit finds.
use crate::rule::Rule;

/// What an audit finds of a journal.
#[derive(Clone, Copy, Drop)]
pub enum Audit {
    /// Each entry may follow the ones before it.
    Legal,
    /// This entry, counted from 0, is the first that may not, by this rule.
    Illegal { entry: u64, rule: Rule },
}
