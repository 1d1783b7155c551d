//! An entry is taken where it may follow, by the kind of the entry.
ghost use Rattle.std.specs.Prelude.{◌≡◌, IfOk, true};
ghost use Rattle.journal_audit.specs.Judging.{IsJudged, Judges, is_brief};

use crate::breach::Breach;
use crate::connections::{arrive, collect, enter, fill, leave};
use crate::judged::Judged;
use crate::workers::{abandon, turn};
use core_run::Run;
use poa_base::{Entry, WantMemory};

/// Takes an entry into a run, which takes so many calls; or tells why it may not follow.
pub(crate) fn judge(run: &mut Run, limit: u64, entry: Entry) -> Result<Judged, WantMemory>
    requires { limit ≡ run.old.limit }
    ensures { IfOk result (λ judged. IsJudged entry run.old judged run.new) }
{
    match entry {
        Entry::Arrive { conn, size, call } => {
            let breach = arrive(run, limit, conn, size, call)?;
            Ok(Judged::of(breach))
        }
        Entry::Collect { conn, arrival } => Ok(collect(run, conn, arrival)),
        entry => {
            let breach = judge_brief(run, limit, &entry)?;
            Ok(Judged::of(breach))
        }
    }
}

/// The same of an entry with which no call arrives and that gives no reply.
fn judge_brief(run: &mut Run, limit: u64, entry: &Entry) -> Result<Option<Breach>, WantMemory>
    requires limit { limit ≡ run.old.limit }
    requires brief { is_brief entry.now ≡ true }
    ensures { IfOk result (λ breach. Judges entry.now run.old breach run.new) }
{
    match entry {
        Entry::Entered { conn } => enter(run, *conn),
        Entry::Filled { conn, size } => Ok(fill(run, limit, *conn, *size)),
        Entry::Left { conn } => Ok(leave(run, *conn)),
        Entry::Abandon { worker } => Ok(abandon(run, *worker)),
        Entry::Admit { .. }
        | Entry::Tried { .. }
        | Entry::Incarnated { .. }
        | Entry::Run { .. }
        | Entry::Done { .. }
        | Entry::TakeOut { .. }
        | Entry::Etherealized { .. } => turn(run, entry),
        Entry::Arrive { .. } | Entry::Collect { .. } => Ok(None),
    }
}
