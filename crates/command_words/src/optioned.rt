//! The commands that have options.

/// A command that has options, of its own names.
#[derive(Clone, Copy)]
pub(crate) enum Optioned {
    Serve,
    Call,
    Audit,
    Explain,
}
