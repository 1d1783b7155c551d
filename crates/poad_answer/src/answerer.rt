//! Who answers the calls of a stream.
ghost use Rattle.poad_answer.specs.Meaning.{Answers, Meaning};
ghost use Rattle.poa_history.specs.Legal.{IsSize};
ghost use Rattle.session_laws.specs.Calls.{IsHeaded};

use poa_base::Call;
use poa_core::ArriveFault;
use std::alloc::Global;

/// Who answers the calls of a stream, one behind the other.
pub(crate) trait Answerer {
    /// What an answer means: what a call gives, which calls are refused, and what holds between two calls.
    ghost meaning: { Meaning Self };

    /// Answers a call of a message of this size: its reply stands behind `replies`. Where it is refused, or memory is
    /// wanting, they are as they were.
    fn answer(
        &mut self,
        alloc: Global,
        call: Call,
        size: u64,
        replies: &mut Vec<u8>,
    ) -> Result<(), ArriveFault>
        requires fits { meaning.fits self.old }
        requires headed { IsHeaded call }
        requires sized { IsSize size }
        ensures answers { Answers meaning result call size self.old self.new replies.old.items
            replies.new.items }
        ensures fits { meaning.fits self.new };
}
