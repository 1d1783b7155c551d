//! `names`: its run, and its status.
ghost use Rattle.std.specs.Prelude.{◌≡◌, ◌≢◌, false};
ghost use Rattle.outside.specs.Cause.{HasCause};
ghost use Rattle.poad_cmd.specs.Commands.{RunsNames};

use outside::{Sink, Source};
use poad_answer::names;
use poad_files::Status;
use std::alloc::Global;

/// Serves the source by naming contexts.
pub(crate) fn serve_names<S: Source, K: Sink>(alloc: Global, source: &mut S, sink: &mut K) -> Status
    requires patient { S.is_waiting source.old ≡ false }
    ensures runs { RunsNames result (S.left source.old) (S.left source.new) (K.held sink.old) (K.held sink.new) }
    ensures read_fault { HasCause (S.read_faults source.old) (S.read_faults source.new) (result ≡ Status.ReadFault) }
    ensures write_fault { HasCause (K.write_faults sink.old) (K.write_faults sink.new) (result ≡ Status.WriteFault) }
    ensures is_command { result ≢ Status.BadWords }
    ensures no_file { result ≢ Status.NoFile }
    ensures too_long { result ≢ Status.FileTooLong }
    ensures file_fault { result ≢ Status.FileFault }
{
    Status::from(names(alloc, source, sink))
}
