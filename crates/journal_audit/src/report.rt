//! What is found of a journal's text.
ghost use Rattle.std.specs.Prelude.{◌≡◌};
ghost use Rattle.journal_audit.specs.Texts.{audit_of};

use crate::finding::Audit;
use crate::matched::Matched;
use crate::refusal::Refusal;

/// What an audit finds of a journal's text.
#[derive(Drop)]
pub struct Report {
    /// How many entries the journal has.
    pub entries: u64,
    /// The number of the line of its first entry, from 1 on; where it has none, that of the line behind the last.
    pub first_line: u64,
    /// The first entry that isn't legal, if there is one.
    pub refusal: Option<Refusal>,
    /// Where all entries are legal and a link was asked for: whether its bytes are a session of its connection.
    pub matched: Option<Matched>,
}

impl Report {
    /// Whether each entry may follow the ones before it, or which is the first that may not, and by what rule.
    pub fn audit(&self) -> Audit
        ensures { result ≡ audit_of self.now.refusal }
    {
        match &self.refusal {
            None => Audit::Legal,
            Some(refusal) => Audit::Illegal {
                entry: refusal.entry,
                rule: refusal.rule,
            },
        }
    }
}
