//! An entry that comes, with what is known of it.
use history_standing::Stage;
use poa_base::{Call, Entry, Sid};

/// An entry of a worker that comes, with what the worker had begun, the call that it speaks of and the servant
/// that runs.
#[derive(Clone, Copy)]
pub struct Coming<'a> {
    pub entry: &'a Entry,
    pub stage: Stage,
    pub call: Option<&'a Call>,
    pub runs: Option<Sid>,
}
