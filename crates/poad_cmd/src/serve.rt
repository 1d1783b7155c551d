//! `serve` by the words of a command line.
ghost use Rattle.std.specs.Prelude.{◌≡◌, ◌≢◌, ◌⊎◌, List, [], Some, None, IfSome, vec_len};
ghost use Rattle.command_words.specs.Serving.{Serve, seen_serve, serve_in};
ghost use Rattle.outside.specs.Cause.{HasCause, Rose};
ghost use Rattle.outside.specs.Told.{IfTold};
ghost use Rattle.poa_history.specs.Life.{Life};
ghost use Rattle.poad_cmd.specs.Complete.{AreCalm, CanBegin, IsRoomy, IsSteady};
ghost use Rattle.poad_cmd.specs.Putting.{Keeps};
ghost use Rattle.poad_cmd.specs.Sending.{AreSent, FitsRun};
ghost use Rattle.poad_cmd.specs.Serving.{Ends, ServesOn};
ghost use Rattle.poad_cmd.specs.Beginning.{IsInRange};
ghost use Rattle.session_laws.specs.Hearing.{Heard};

use crate::beginning::{Beginning, begin};
use crate::ending::status_of;
use crate::putting::put_files;
use crate::served::Served;
use outside::{Acceptor, Files, Gate, ThreadCrew};
use poad_files::{Host, Status};
use serve_run::{Doors, Finished, Means, Run, serve_core};
use std::sync::Wait;
use std::thread::Threads;

/// Serves clients and administrators over these doors, by the words `serve FILE --lanes L --workers W --run N
/// [--state NAME] [--journal NAME] [--limit N]`: the configuration is the one in FILE, and there are as many doors for
/// clients as the words say. The run opens with the store in the state file, and with none where there is no such file.
/// It takes as many calls as the limit says, or else 4,000,000. When it is over, what is stored is put into the state
/// file, and then the journal into its file, also where the first put failed.
///
/// How it ends, the first of these that is so:
/// - `BadWords`: the words are none of `serve`. Nothing was begun.
/// - `NoFile`, `FileTooLong`, `FileFault`, `ConfigRefused`: FILE isn't there, is longer than a configuration may be, couldn't
///   be read, or holds none. Nothing was begun.
/// - `StateRefused`, `FileTooLong`, `FileFault`: the state file has a line that is none of a state file, is longer than it may
///   be, or couldn't be read. Nothing was begun.
/// - `WantMemory`: no memory was left.
/// - `NoThread`: a thread couldn't be started; what ran by then came to its end.
/// - `FileFault`: the store or the journal couldn't be put.
/// - `ListenFault`: a door failed.
/// - `Limit`: a call or a connection was refused for the limits of the run.
/// - `Ok`: an administrator said `shutdown`, or each door ended.
///
/// No other status comes. Where no count of faults rises and the run can begin by the files, it ends in `Ok` or `WantMemory`
/// if it has room for what comes in: the doors tell fewer than 4,000,000 links, which send no more calls than the run takes,
/// and no more than 1 GiB of them, with the run's own `shutdown` where a link sends one too. The same holds where doors tell
/// nothing and its journal shows room: no call was refused, and fewer than 4,000,000 connections entered.
pub fn run_serve<T, R, S, K, F, A, G>(
    means: &Means<'_, R, G>,
    words: &[String],
    host: &mut Host<S, K, F>,
    doors: Doors<A>,
    crew: &mut ThreadCrew<T>,
) -> Served<A>
where
    T: Threads + Wait + Drop,
    R: Wait + Copy + Send + Drop + 'static,
    F: Files,
    A: Acceptor + Send + Drop + 'static,
    A::Link: Send + 'static,
    G: Gate + Send + Sync + Drop + 'static,
    requires lanes { (serve : Serve) → serve_in words.now ≡ Some serve → vec_len doors.lanes ≡ serve.lanes }
    ensures ends { Ends A.Link.shown A.standing A.faults A.ends (serve_in words.now) result.status doors result.doors result.core
        (F.contents host.old.files) (F.contents host.new.files) }
    ensures kept { (serve : Serve) (life : Life) → serve_in words.now ≡ Some serve → result.core ≡ Some life
        → result.status ≢ Status.WantMemory → (Rose (F.put_faults host.old.files) (F.put_faults host.new.files) → ⊥)
        → IfTold (F.contents host.old.files) (F.contents host.new.files) (Keeps serve life) }
    ensures source { host.new.source ≡ host.old.source }
    ensures sink { host.new.sink ≡ host.old.sink }
    ensures no_file { HasCause (F.absents host.old.files) (F.absents host.new.files) (result.status ≡ Status.NoFile) }
    ensures too_long { HasCause (F.long_ones host.old.files) (F.long_ones host.new.files) (result.status ≡ Status.FileTooLong) }
    ensures taken { HasCause (F.take_faults host.old.files) (F.take_faults host.new.files)
        ((result.status ≡ Status.FileFault) × (result.core ≡ None)) }
    ensures put { HasCause (F.put_faults host.old.files) (F.put_faults host.new.files)
        ((result.status ≡ Status.FileFault) × (result.core ≢ None)) }
    ensures all_put { result.status ≡ Status.Ok → F.put_faults host.new.files ≡ F.put_faults host.old.files }
    ensures no_thread { result.status ≡ Status.NoThread → Rose crew.old.faults crew.new.faults }
    ensures all_started { result.status ≡ Status.Ok → crew.new.faults ≡ crew.old.faults }
    ensures complete { (serve : Serve) (sent : List (List Heard)) → serve_in words.now ≡ Some serve
        → IsSteady (F.take_faults host.old.files) (F.take_faults host.new.files) (F.put_faults host.old.files)
        (F.put_faults host.new.files) crew.old.faults crew.new.faults
        → AreCalm A.faults doors result.doors → CanBegin serve (F.contents host.old.files)
        → AreSent A.Link.shown A.standing doors sent → FitsRun serve.limit sent
        → (result.status ≡ Status.Ok) ⊎ (result.status ≡ Status.WantMemory) }
    ensures roomy { (serve : Serve) → serve_in words.now ≡ Some serve
        → IsSteady (F.take_faults host.old.files) (F.take_faults host.new.files) (F.put_faults host.old.files)
        (F.put_faults host.new.files) crew.old.faults crew.new.faults
        → AreCalm A.faults doors result.doors → CanBegin serve (F.contents host.old.files) → IfSome result.core IsRoomy
        → (result.status ≡ Status.Ok) ⊎ (result.status ≡ Status.WantMemory) }
{
    match begin(means.alloc, words, &mut host.files) {
        Ok(beginning) => serve_by(means, beginning, &mut host.files, doors, crew),
        Err(status) => Served::refused(status, doors),
    }
}

// Serves on the core, and puts its store and its journal.
fn serve_by<T, R, F, A, G>(
    means: &Means<'_, R, G>,
    beginning: Beginning<'_>,
    files: &mut F,
    doors: Doors<A>,
    crew: &mut ThreadCrew<T>,
) -> Served<A>
where
    T: Threads + Wait + Drop,
    R: Wait + Copy + Send + Drop + 'static,
    F: Files,
    A: Acceptor + Send + Drop + 'static,
    A::Link: Send + 'static,
    G: Gate + Send + Sync + Drop + 'static,
    requires ranges { IsInRange beginning.words }
    requires lanes { vec_len doors.lanes ≡ beginning.words.lanes }
    requires fresh { beginning.core.history ≡ [] }
    ensures serves { ServesOn A.Link.shown A.standing A.faults A.ends (seen_serve beginning.entry.words) beginning.entry.core result.status
        doors result.doors result.core (F.contents files.old) (F.contents files.new) }
    ensures kept { (life : Life) → result.core ≡ Some life → result.status ≢ Status.WantMemory
        → (Rose (F.put_faults files.old) (F.put_faults files.new) → ⊥)
        → IfTold (F.contents files.old) (F.contents files.new) (Keeps (seen_serve beginning.entry.words) life) }
    ensures put { HasCause (F.put_faults files.old) (F.put_faults files.new) ((result.status ≡ Status.FileFault) × (result.core ≢ None)) }
    ensures all_put { result.status ≡ Status.Ok → F.put_faults files.new ≡ F.put_faults files.old }
    ensures no_thread { result.status ≡ Status.NoThread → Rose crew.old.faults crew.new.faults }
    ensures all_started { result.status ≡ Status.Ok → crew.new.faults ≡ crew.old.faults }
    ensures takes { F.take_faults files.new ≡ F.take_faults files.old }
    ensures absents { F.absents files.new ≡ F.absents files.old }
    ensures long_ones { F.long_ones files.new ≡ F.long_ones files.old }
{
    let Beginning { words, core } = beginning;
    let Finished { doors, run } = serve_core(means, core, doors, words.workers, crew);
    let Some(Run { core, outcome }) = run else {
        return Served::refused(Status::WantMemory, doors);
    };
    let put = put_files(means.alloc, &words, &core, files);
    Served {
        status: status_of(&outcome, &put, core.filled()),
        doors,
        core: Some(core),
    }
}
