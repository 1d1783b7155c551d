//! What a command is answered: refused, done, or done with an answer that waits.
ghost use Rattle.std.specs.Prelude.{◌≡◌};
ghost use Rattle.history_standing.specs.Commands as rows;

use poa_base::{Answer, Reason, Verdict};

/// Refused for a reason.
pub fn refusal(reason: Reason) -> Option<Verdict>
    ensures { result ≡ rows.refusal reason }
{
    Some(Verdict::Answer(Answer::No(reason)))
}

/// Done at once.
pub fn good() -> Option<Verdict>
    ensures { result ≡ rows.good }
{
    Some(Verdict::Answer(Answer::Good))
}

/// Done at once, or with an answer that waits.
pub fn good_or_wait(wait: bool) -> Option<Verdict>
    ensures { result ≡ rows.good_or_wait wait }
{
    if wait { Some(Verdict::Wait) } else { good() }
}
