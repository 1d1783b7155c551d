//! Connections are given their replies.
ghost use Rattle.poa_core.specs.Answers as answers;
ghost use Rattle.poa_core.specs.Fits.{FitsItsCall};

use crate::collected::Collected;
use core_run::Run;

/// A connection is given its next reply, which is one to a call of its kind. Takes no memory.
pub fn collect(run: &mut Run, conn: u32) -> Collected
    ensures collected { answers.Collects conn run.old result run.new }
    ensures fits { FitsItsCall run.old.history result }
{
    let Some(filed) = run.collect(conn) else {
        return Collected::Nothing {
            owed: run.owed(conn),
        };
    };
    Collected::Reply {
        arrival: filed.arrival,
        head: filed.head,
        reply: filed.reply,
    }
}
