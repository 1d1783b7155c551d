//! The commands.
use crate::audit_words::AuditWords;
use crate::explain_words::ExplainWords;

/// What the words of a command line ask for.
#[derive(Drop)]
pub enum Command<'a> {
    /// To serve messages by the configuration in the file of this name, or by the built-in one.
    Answer(Option<&'a str>),
    /// To print the reference that this text is.
    Show(&'a str),
    /// To check the configuration in the file of this name.
    Check(&'a str),
    /// To print the references of the configuration in the file of this name.
    Iors(&'a str),
    /// To print a reference with the tags of a configuration's adapters.
    Migrate {
        /// The name of the file with the configuration.
        config: &'a str,
        /// The text of the reference.
        text: &'a str,
    },
    /// To print the corbaloc text of the reference that this text is.
    Loc(&'a str),
    /// To play a script.
    Replay {
        /// The name of the file with the configuration.
        config: &'a str,
        /// The name of the file with the script.
        script: &'a str,
    },
    /// To play so many draws of the generator that starts with a number.
    Load {
        /// At most 200,000.
        calls: u32,
        start: u64,
    },
    /// To audit a journal.
    Audit(AuditWords<'a>),
    /// To explain calls of a journal.
    Explain(ExplainWords<'a>),
    /// To serve messages by naming contexts.
    Names,
}
