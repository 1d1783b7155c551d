//! `answer`: a run of a configuration serves a source.
ghost use Rattle.std.specs.Prelude.{◌≡◌, false, IfOk};
ghost use Rattle.outside.specs.Cause.{HasCause};
ghost use Rattle.poa_core.specs.Answers.{unadmitted};
ghost use Rattle.poa_policy.specs.Kept.{KeepsRules};
ghost use Rattle.poad_answer.specs.Run.{RunAnswers, TellsEnd, TellsHeld, life_at_answer};
ghost use Rattle.poad_answer.specs.Serving.{IsLegalRun};

use crate::end::End;
use crate::source::serve_source;
use outside::{Sink, Source};
use poa_base::limits::CALLS;
use poa_base::{Config, Store, WantMemory};
use poa_core::Core;
use poad_files::Status;
use std::alloc::Global;

/// Serves the messages of the source in order, by a run of a configuration, and writes the replies that a piece of
/// input owes before it reads the next piece. Where a message is bad MessageError follows the replies, and where
/// the run refuses a call CloseConnection does, of the version of the first message, and of 1.2 where there is none.
pub(crate) fn answer<S: Source, K: Sink>(
    alloc: Global,
    config: Config,
    source: &mut S,
    sink: &mut K,
) -> Status
    requires patient { S.is_waiting source.old ≡ false }
    requires rules { KeepsRules config }
    ensures answers { RunAnswers config result (S.left source.old) (S.left source.new)
        (K.held sink.old) (K.held sink.new) }
    ensures read { HasCause (S.read_faults source.old) (S.read_faults source.new)
        (result ≡ Status.ReadFault) }
    ensures written { HasCause (K.write_faults sink.old) (K.write_faults sink.new)
        (result ≡ Status.WriteFault) }
{
    let Ok(mut core) = entered(alloc, config) else {
        return Status::WantMemory;
    };
    let end = serve_source(alloc, &mut core, source, sink);
    status_of(end, &core)
}

// The run of a configuration, once its one connection has entered.
fn entered(alloc: Global, config: Config) -> Result<Core, WantMemory>
    requires rules { KeepsRules config }
    ensures life { IfOk result (λ core. core ≡ life_at_answer config) }
    ensures legal { IfOk result (λ core. IsLegalRun core) }
{
    let run = config.run;
    let mut core = Core::new(alloc, config, run, Store::new(alloc), CALLS)?;
    let Ok(_) = core.enter() else {
        return Err(WantMemory);
    };
    // For its clauses: the history so far is legal.
    core.keeps_laws();
    Ok(core)
}

// The status of a run whose source was served to this end.
fn status_of(end: End, core: &Core) -> Status
    ensures { TellsEnd end result (unadmitted core.now.history) }
{
    match end {
        End::Read => read_whole(core),
        End::ReadFault => Status::ReadFault,
        End::WriteFault => Status::WriteFault,
        End::Malformed { at } => Status::Malformed { at },
        End::Full { arrivals, bytes } => Status::Limit { arrivals, bytes },
        End::Truncated { have } => Status::Truncated { have },
        End::InputLimit { taken } => Status::InputLimit { taken },
        End::WantMemory => Status::WantMemory,
    }
}

// The status where the input was read whole: it says whether calls are unadmitted.
fn read_whole(core: &Core) -> Status
    ensures { TellsHeld result (unadmitted core.now.history) }
{
    match core.unadmitted() {
        0 => Status::Ok,
        count => Status::Held { count },
    }
}
