//! Why words give no command.

/// Why the words of a command line give no command.
#[derive(Clone, Copy)]
pub enum WordsFault {
    /// The words are no command.
    BadWords,
    /// Memory ran out.
    WantMemory,
}
