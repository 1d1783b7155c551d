//! What the words of `serve` ask for.

/// The run of a server that words ask for.
#[derive(Clone, Copy)]
pub struct ServeWords<'a> {
    /// The name of the file with the configuration.
    pub file: &'a str,
    /// How many clients are served at once: 1 to 64.
    pub lanes: u32,
    /// How many workers there are: 1 to 16.
    pub workers: u32,
    /// The number of the run.
    pub run: u32,
    /// The name of the file with the store that the run opens with, into which its own is to be written.
    pub state: Option<&'a str>,
    /// The name of the file into which the journal is to be written.
    pub journal: Option<&'a str>,
    /// How many calls it takes: 1 to 4,000,000.
    pub limit: u32,
}
