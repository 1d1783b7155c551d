//! What is found of the calls that are asked for.
use crate::watch::Watch;
use journal_audit::Refusal;

/// What is found in a journal's text of the calls that are asked for.
#[derive(Drop)]
pub struct Explanation {
    /// The number of the line of the journal's first entry, from 1 on; where it has none, that of the line behind the last.
    pub first_line: u64,
    /// The first entry that isn't legal, if there is one.
    pub refusal: Option<Refusal>,
    /// What was asked, and where each entry is legal what is found of it.
    pub watch: Watch,
}
