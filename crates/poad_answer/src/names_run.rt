//! `names`: naming contexts serve a source.
ghost use Rattle.std.specs.Prelude.{◌≡◌, ◌⊎◌, ℕ, false, ◌≢◌};
ghost use Rattle.std.specs.Option.{IsSomeAnd};
ghost use Rattle.outside.specs.Cause.{HasCause, Rose};
ghost use Rattle.poad_answer.specs.NamesRun.{RunNames, end_of};
ghost use Rattle.poad_answer.specs.Whole.{IsWholeInput};

use crate::end::End;
use crate::names_end::NamesEnd;
use crate::source::serve_source;
use naming_context::Contexts;
use outside::{Sink, Source};
use std::alloc::Global;

/// Serves the messages of the source in order, by naming contexts of which context 0 alone is there at first, with nothing
/// bound, and writes the replies that a piece of input owes before it reads the next piece. Where a message is bad
/// MessageError follows the replies, of the version of the first message, and of 1.2 where there is none.
///
/// - `Ended`: the source was read to its end with nothing left over, or to a CloseConnection.
/// - `Malformed`: the first bad message starts at this byte.
/// - `Truncated`: the source ended, and so many of its bytes belong to no whole message.
/// - `InputLimit`: exactly where 2^32 bytes were taken of the source, and no message of them ends the run.
/// - `ReadFault`, `WriteFault`: a read of the source, or a write to the sink, failed in this call.
/// - `WantMemory`: no memory was left.
///
/// After `WriteFault` and `WantMemory` a front of what was due was written. Where no count of faults rises, and the source
/// has whole messages that are calls and CancelRequests, it ends in `Ended` or `WantMemory`.
pub fn names<S: Source, K: Sink>(alloc: Global, source: &mut S, sink: &mut K) -> NamesEnd
    requires patient { S.is_waiting source.old ≡ false }
    ensures names { RunNames result (S.left source.old) (S.left source.new) (K.held sink.old)
        (K.held sink.new) }
    ensures read { HasCause (S.read_faults source.old) (S.read_faults source.new)
        (result ≡ NamesEnd.ReadFault) }
    ensures written { HasCause (K.write_faults sink.old) (K.write_faults sink.new)
        (result ≡ NamesEnd.WriteFault) }
    ensures complete { (Rose (S.read_faults source.old) (S.read_faults source.new) → ⊥)
        → (Rose (K.write_faults sink.old) (K.write_faults sink.new) → ⊥)
        → IsSomeAnd (S.left source.old) IsWholeInput
        → (result ≡ NamesEnd.Ended) ⊎ (result ≡ NamesEnd.WantMemory) }
{
    serve_names(alloc, source, sink)
}

// The same, without what it takes to end well.
fn serve_names<S: Source, K: Sink>(alloc: Global, source: &mut S, sink: &mut K) -> NamesEnd
    requires patient { S.is_waiting source.old ≡ false }
    ensures names { RunNames result (S.left source.old) (S.left source.new) (K.held sink.old)
        (K.held sink.new) }
    ensures read { HasCause (S.read_faults source.old) (S.read_faults source.new)
        (result ≡ NamesEnd.ReadFault) }
    ensures written { HasCause (K.write_faults sink.old) (K.write_faults sink.new)
        (result ≡ NamesEnd.WriteFault) }
{
    let mut contexts = Contexts::new(alloc);
    let end = serve_source(alloc, &mut contexts, source, sink);
    names_end(end)
}

// The same end: contexts refuse no call.
fn names_end(end: End) -> NamesEnd
    requires { (calls : ℕ) (bytes : ℕ) → end ≢ End.Full calls bytes }
    ensures { end_of result ≡ end }
{
    match end {
        End::Read => NamesEnd::Ended,
        End::ReadFault => NamesEnd::ReadFault,
        End::WriteFault => NamesEnd::WriteFault,
        End::Malformed { at } => NamesEnd::Malformed { at },
        End::Full { .. } => unreachable!(),
        End::Truncated { have } => NamesEnd::Truncated { have },
        End::InputLimit { taken } => NamesEnd::InputLimit { taken },
        End::WantMemory => NamesEnd::WantMemory,
    }
}
