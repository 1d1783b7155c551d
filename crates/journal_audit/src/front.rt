//! The front of a journal's text.
use poa_journal::Opening;

/// The number of the run by a journal's head line, and what is stored by the rows behind it, with the text of the entries.
#[derive(Drop)]
pub(crate) struct Front<'a> {
    pub(crate) run: u32,
    pub(crate) opening: Opening<'a>,
}
