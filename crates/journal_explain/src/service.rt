//! The activation that serves a call.
ghost use Rattle.std.specs.Prelude.{◌≡◌, IfOk};
ghost use Rattle.journal_audit.specs.Judging.{Follows};
ghost use Rattle.journal_explain.specs.Serving as serving;

use crate::activity::servant_at;
use crate::next::Next;
use crate::servant::Servant;
use crate::server::served_with;
use core_run::Run;
use poa_base::WantMemory;

/// The activation that serves a call, as it stands when the call is admitted.
#[derive(Drop)]
pub struct Service {
    pub servant: Option<Servant>,
    /// The entry that began it, by its place in the journal, from 0 on; none where it is one of the configuration's.
    pub begun: Option<u64>,
}

/// The activation by which the next entry of a run, where it may follow, has a call served; none where it has none served by one.
pub(crate) fn service_with(run: &Run, next: &Next<'_>) -> Result<Option<Service>, WantMemory>
    ensures { Follows run.now next.now.entry.now
        → IfOk result (λ service. service ≡ serving.service_by run.now.config run.now.run
        run.now.history next.now.begun (serving.served_with next.now.entry.now)) }
{
    run.keeps_laws();
    match served_with(next.entry) {
        Some(number) => {
            let servant = servant_at(run, number)?;
            let begun = next.begun;
            Ok(Some(Service { servant, begun }))
        }
        None => Ok(None),
    }
}
