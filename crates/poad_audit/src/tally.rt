//! How often the same came of calls.
ghost use Rattle.std.specs.Prelude.{◌≡◌, ◌<◌, ◌+◌, ◌^◌};
ghost use Rattle.poad_audit.specs.Table as printed;

use journal_explain::{Came, Outcome, Row};

/// Of how many calls the same came, the first of them and the last.
#[derive(Clone, Copy, Drop)]
pub(crate) struct Tally {
    pub count: u64,
    pub first: Option<Came>,
    pub last: Option<Came>,
}

impl Tally {
    fn new() -> Tally
        ensures { result ≡ printed.no_call }
    {
        Tally {
            count: 0,
            first: None,
            last: None,
        }
    }

    /// With one call more.
    fn with(self, call: Came) -> Tally
        requires { self.count + 1 < 2 ^ 64 }
        ensures { result ≡ printed.with_call call self }
    {
        Tally {
            count: self.count + 1,
            first: self.first.or(Some(call)),
            last: Some(call),
        }
    }
}

/// The tally of the calls of which this came.
pub(crate) fn tally_of(came: &[Came], outcome: Outcome) -> Tally
    ensures { result ≡ printed.tallied outcome printed.no_call came.now }
{
    let mut tally = Tally::new();
    for call in came {
        if is_same(outcome, call.outcome) {
            tally = tally.with(*call);
        }
    }
    tally
}

fn is_same(a: Outcome, b: Outcome) -> bool
    ensures { result ≡ printed.is_same a b }
{
    match (a, b) {
        (Outcome::Unadmitted, Outcome::Unadmitted) | (Outcome::Command, Outcome::Command) => true,
        (Outcome::Decided(a), Outcome::Decided(b)) => row_number(a) == row_number(b),
        _ => false,
    }
}

/// The place of a row in the table of verdicts, from 1 on.
pub(crate) fn row_number(row: Row) -> u32
    ensures { result ≡ printed.row_number row }
{
    match row {
        Row::Crowded => 1,
        Row::NoKey => 2,
        Row::BadKey => 3,
        Row::OtherRun => 4,
        Row::AdapterDying => 5,
        Row::ChildGone => 6,
        Row::ParentManager => 7,
        Row::ChildTried => 8,
        Row::ChildActivator => 9,
        Row::ChildForward => 10,
        Row::ChildMissing => 11,
        Row::OtherLifespan => 12,
        Row::OtherTag => 13,
        Row::Manager => 14,
        Row::Thread => 15,
        Row::Active => 16,
        Row::Changing => 17,
        Row::NotActive => 18,
        Row::DefaultServant => 19,
        Row::NoDefaultServant => 20,
        Row::NoServantManager => 21,
        Row::ActivatorHere => 22,
        Row::ActivatorBusy => 23,
        Row::Incarnate => 24,
        Row::LocatorHere => 25,
        Row::Locator => 26,
        Row::NoRule => 27,
    }
}
