//! What came of a call.
use crate::row::Row;

/// What came of a call.
#[derive(Clone, Copy, PartialEq, Eq, Drop)]
pub enum Outcome {
    /// It hasn't been admitted.
    Unadmitted,
    /// It is a command, and was admitted.
    Command,
    /// It is a request or a locate, and this row of the table of verdicts admitted it last.
    Decided(Row),
}
