//! Why an entry may not follow.
ghost use Rattle.std.specs.Prelude.{◌≡◌};
ghost use Rattle.journal_audit.specs.Judging.{placed as placed_at};

use crate::refusal::Refusal;
use crate::rule::Rule;
use poa_base::Entry;

/// Why an entry may not follow the ones before it.
#[derive(Drop)]
pub(crate) struct Breach {
    pub(crate) rule: Rule,
    /// The one entry that would have been allowed, where there is one.
    pub(crate) due: Option<Entry>,
}

impl Breach {
    /// The same of an entry at this place.
    pub(crate) fn at(self, place: u64) -> Refusal
        ensures { result ≡ placed_at place self }
    {
        Refusal {
            entry: place,
            rule: self.rule,
            due: self.due,
        }
    }
}
