//! A command over a source, a sink and files.
ghost use Rattle.std.specs.Prelude.{◌≡◌, ◌≢◌, ◌⊎◌, ℕ, List, Option, Some, None, false};
ghost use Rattle.outside.specs.Cause.{HasCause};
ghost use Rattle.outside.specs.Told.{IfTold};
ghost use Rattle.command_words.specs.Auditing.{Audit};
ghost use Rattle.command_words.specs.Explaining.{Explain};
ghost use Rattle.command_words.specs.Words as spec;
ghost use Rattle.command_words.specs.Words.{IsWithin, Meant, command_in, seen};
ghost use Rattle.poad_files.specs.declared.Asked.TheVariants.{Counts, References};
ghost use Rattle.poad_answer.specs.Answering.{AnswersBy};
ghost use Rattle.poad_audit.specs.Auditing.{AuditsFiles};
ghost use Rattle.poad_audit.specs.Explaining.{ExplainsFiles};
ghost use Rattle.poad_cmd.specs.Commands.{Does, RunsNames, sought as sought_of};
ghost use Rattle.poad_cmd.specs.Complete.{Fits, IsCalm};
ghost use Rattle.poad_cmd.specs.Playing.{PlaysFiles};
ghost use Rattle.poad_files.specs.Migrating.{MigratesFile};
ghost use Rattle.poad_files.specs.Locating.{Locates};
ghost use Rattle.poad_files.specs.Showing.{Tells};
ghost use Rattle.poad_files.specs.Filing.{Filed};
ghost use Rattle.poad_files.specs.Taking.{HoldsStill};
ghost use Rattle.poad_load.specs.Writing.{LoadGives};

use crate::naming::serve_names;
use crate::playing::play_files;
use crate::seeking::sought;
use command_words::{Command, WordsFault, command_of};
use outside::{Files, Sink, Source};
use poad_answer::answer_by;
use poad_audit::{audit_files, explain_files};
use poad_files::{Asked, Host, Status, migrate_file, print_file, print_loc, show_text};
use poad_load::load;
use std::alloc::Global;

/// Does what the words say.
///
/// - `answer`, `answer FILE`: reads GIOP messages from the source, serves them by a run of the configuration in the
///   file, or of the built-in one, and writes the replies to the sink.
/// - `replay FILE SCRIPT`: plays the script in a file on a run of a configuration, and writes what it prints.
/// - `load N START`: plays N calls, which a generator draws from START on, with turns of workers between them, on a
///   configuration of the program, and writes what is counted of the run.
/// - `show IOR`: prints the reference to the sink.
/// - `loc IOR`: prints the corbaloc text of the reference to the sink.
/// - `check FILE`: reads the configuration in the file, and prints how many there are of each kind.
/// - `iors FILE`: reads the configuration in the file, and prints the references of its objects.
/// - `migrate FILE IOR`: reads the configuration in the file, and prints the reference with the tags of its adapters.
/// - `audit FILE JOURNAL [--limit N] [--conn C --in NAME --out NAME]`: reads the journal in the second file, as one of a run of
///   the configuration in the first that takes N calls, and prints `legal N`, of so many entries, or `illegal K RULE`, of the
///   first that may not follow those before it, counted from 0. Where all are legal, and a connection is named, prints in a
///   line more `session yes` or `session no`: whether the two other files hold what that connection read and what was
///   written to it, by the journal, in a session that ended well.
/// - `explain FILE JOURNAL [--arrival A | --call C ID | --object PATH OID | --picture [--from E] [--to E]] [--limit N]`: reads
///   the journal in the second file as `audit` does, and prints what happened to the call that arrived as the one of number A,
///   counted from 0, or to each request and locate of id ID on connection C: a line for each entry that says something of it.
///   With none of these it prints what came of all calls: a line for each outcome, with how many calls it has.
/// - `names`: reads GIOP messages from the source, serves them by naming contexts, of which one alone is there at first, with
///   nothing bound, and writes the replies to the sink.
///
/// The source is one that doesn't wait: a read of it waits until something is there.
///
/// How it ends:
/// - `Ok`: `answer` or `names` read the source to its end, or to a CloseConnection, and every owed reply was written; or
///   what the other commands print was written whole. No call is unadmitted.
/// - `Held`: the same of `answer` and `replay`, but so many calls are unadmitted.
/// - `Limit`: `answer` came to a call that the run refuses: the replies to those before it were written, and then
///   CloseConnection. Or `replay` came to such a call or connection, and what the script prints was written whole.
/// - `ScriptRefused`: this line of the script is the first outside the grammar. Nothing was written.
/// - `Illegal`: this entry of the journal is the first that isn't legal. By `audit` the line that says so was written, by
///   `explain` nothing.
/// - `NoMatch`: the journal is legal, and the bytes of this connection aren't such a session of it. The lines that say so were
///   written.
/// - `JournalRefused`: this line of the journal is the first outside the grammar. Nothing was written.
/// - `BadWords`: the words are none of these commands. Nothing was read or written.
/// - `TextRefused`: the text of `show`, `migrate` or `loc` is no reference, with its first fault. Nothing was written.
/// - `LocRefused`: the text of `show` or `migrate` begins as a corbaloc text and is none, with its first fault. Nothing was
///   written.
/// - `NoLoc`: the reference of `loc` has no corbaloc text. Nothing was written.
/// - `NoFile`, `FileTooLong`, `FileFault`: a file isn't there, is longer than a configuration, a script or a
///   journal may be, or a read of it failed in this call. Nothing was written.
/// - `ConfigRefused`: the file holds no configuration, with its first fault. Nothing was written.
/// - `Malformed`: the first bad message of the source starts at this byte. The replies to the messages before
///   it were written, and then MessageError (CORBA 3.3 Part 2, 9.4.8).
/// - `Truncated`: the source ended, and so many of its bytes belong to no whole message: those behind the last
///   part, and all parts of messages that are still open. The replies to the whole messages were written.
/// - `InputLimit`: exactly where 2^32 bytes were taken of the source, and no message of them ends the run.
/// - `ReadFault`, `WriteFault`: a read of the source, or a write to the sink, failed in this call. After a fault
///   of reading every reply that was due was written, and after one of writing a front of what was due.
/// - `WantMemory`: no memory was left. A front of what was due was written.
///
/// No other status comes. Where no count of faults rises, and what the command works on is accepted and within its limits, it
/// ends in `Ok` or `WantMemory`.
pub fn run_words<S: Source, K: Sink, F: Files>(
    alloc: Global,
    words: &[String],
    host: &mut Host<S, K, F>,
) -> Status
    requires patient { S.is_waiting host.old.source ≡ false }

    ensures bad_words { result ≡ Status.BadWords → command_in words.now ≡ None }
    ensures no_command { command_in words.now ≡ None
        → (result ≡ Status.BadWords) ⊎ (result ≡ Status.WantMemory) }
    ensures untouched { command_in words.now ≡ None → host.new ≡ host.old }

    ensures answers { (name : Option (List ℕ)) → command_in words.now ≡ Some (spec.answer name)
        → AnswersBy name result (F.contents host.old.files) (F.contents host.new.files)
        (S.left host.old.source) (S.left host.new.source)
        (K.held host.old.sink) (K.held host.new.sink) }
    ensures plays { (file script : List ℕ) → command_in words.now ≡ Some (spec.replay file script)
        → PlaysFiles file script result (F.contents host.old.files) (F.contents host.new.files)
        (K.held host.old.sink) (K.held host.new.sink)
        × (host.new.source ≡ host.old.source) }
    ensures loads { (n start : ℕ) → command_in words.now ≡ Some (spec.load n start)
        → LoadGives n start result (K.held host.old.sink) (K.held host.new.sink)
        × (host.new.source ≡ host.old.source) × (host.new.files ≡ host.old.files) }
    ensures shows { (text : List ℕ) → command_in words.now ≡ Some (spec.show text)
        → Tells result text (K.held host.old.sink) (K.held host.new.sink)
        × (host.new.source ≡ host.old.source) × (host.new.files ≡ host.old.files) }
    ensures locates { (text : List ℕ) → command_in words.now ≡ Some (spec.loc text)
        → Locates result text (K.held host.old.sink) (K.held host.new.sink)
        × (host.new.source ≡ host.old.source) × (host.new.files ≡ host.old.files) }
    ensures checks { (name : List ℕ) → command_in words.now ≡ Some (spec.check name)
        → Filed Counts name result (F.contents host.old.files) (F.contents host.new.files)
        (K.held host.old.sink) (K.held host.new.sink)
        × (host.new.source ≡ host.old.source) }
    ensures iors { (name : List ℕ) → command_in words.now ≡ Some (spec.iors name)
        → Filed References name result (F.contents host.old.files) (F.contents host.new.files)
        (K.held host.old.sink) (K.held host.new.sink)
        × (host.new.source ≡ host.old.source) }
    ensures migrates { (name text : List ℕ) → command_in words.now ≡ Some (spec.migrate name text)
        → MigratesFile name text result (F.contents host.old.files) (F.contents host.new.files)
        (K.held host.old.sink) (K.held host.new.sink)
        × (host.new.source ≡ host.old.source) }
    ensures audits { (asked : Audit) → command_in words.now ≡ Some (spec.audit asked)
        → AuditsFiles asked result (F.contents host.old.files) (F.contents host.new.files)
        (K.held host.old.sink) (K.held host.new.sink)
        × (host.new.source ≡ host.old.source) }
    ensures explains { (asked : Explain) → command_in words.now ≡ Some (spec.explain asked)
        → ExplainsFiles asked.config asked.journal asked.limit (sought_of asked.calls) result (F.contents host.old.files)
        (F.contents host.new.files) (K.held host.old.sink) (K.held host.new.sink) × (host.new.source ≡ host.old.source) }
    ensures names { command_in words.now ≡ Some spec.names
        → RunsNames result (S.left host.old.source) (S.left host.new.source)
        (K.held host.old.sink) (K.held host.new.sink)
        × (host.new.files ≡ host.old.files) }
    ensures contents { IfTold (F.contents host.old.files) (F.contents host.new.files) HoldsStill }
    ensures read_fault { HasCause (S.read_faults host.old.source) (S.read_faults host.new.source)
        (result ≡ Status.ReadFault) }
    ensures write_fault { HasCause (K.write_faults host.old.sink) (K.write_faults host.new.sink)
        (result ≡ Status.WriteFault) }
    ensures file_fault { HasCause (F.take_faults host.old.files) (F.take_faults host.new.files)
        (result ≡ Status.FileFault) }
    ensures no_file { HasCause (F.absents host.old.files) (F.absents host.new.files)
        (result ≡ Status.NoFile) }
    ensures too_long { HasCause (F.long_ones host.old.files) (F.long_ones host.new.files)
        (result ≡ Status.FileTooLong) }
    ensures complete { (meant : Meant) → command_in words.now ≡ Some meant
        → IsCalm (S.read_faults host.old.source) (S.read_faults host.new.source)
        (K.write_faults host.old.sink) (K.write_faults host.new.sink)
        (F.take_faults host.old.files) (F.take_faults host.new.files)
        → Fits meant (F.contents host.old.files) (S.left host.old.source)
        → (result ≡ Status.Ok) ⊎ (result ≡ Status.WantMemory) }
{
    match command_of(alloc, words) {
        Ok(command) => run_command(alloc, command, host),
        Err(WordsFault::BadWords) => Status::BadWords,
        Err(WordsFault::WantMemory) => Status::WantMemory,
    }
}

// Does what a command asks.
fn run_command<S: Source, K: Sink, F: Files>(
    alloc: Global,
    command: Command<'_>,
    host: &mut Host<S, K, F>,
) -> Status
    requires patient { S.is_waiting host.old.source ≡ false }
    requires within { IsWithin (seen command) }
    ensures does { Does (seen command.entry) result
        (F.contents host.old.files) (F.contents host.new.files)
        (S.left host.old.source) (S.left host.new.source)
        (K.held host.old.sink) (K.held host.new.sink)
        host.old.source host.new.source host.old.files host.new.files }
    ensures is_command { result ≢ Status.BadWords }
    ensures contents { IfTold (F.contents host.old.files) (F.contents host.new.files) HoldsStill }
    ensures read_fault { HasCause (S.read_faults host.old.source) (S.read_faults host.new.source)
        (result ≡ Status.ReadFault) }
    ensures write_fault { HasCause (K.write_faults host.old.sink) (K.write_faults host.new.sink)
        (result ≡ Status.WriteFault) }
    ensures file_fault { HasCause (F.take_faults host.old.files) (F.take_faults host.new.files)
        (result ≡ Status.FileFault) }
    ensures no_file { HasCause (F.absents host.old.files) (F.absents host.new.files)
        (result ≡ Status.NoFile) }
    ensures too_long { HasCause (F.long_ones host.old.files) (F.long_ones host.new.files)
        (result ≡ Status.FileTooLong) }
{
    let Host {
        source,
        sink,
        files,
    } = host;
    match command {
        Command::Answer(name) => { answer_by(alloc, name, files, source, sink) }
        Command::Replay { config, script } => { play_files(alloc, config, script, files, sink) }
        Command::Load { calls, start } => load(alloc, calls, start, sink),
        Command::Show(text) => show_text(alloc, text.as_bytes(), sink),
        Command::Loc(text) => print_loc(alloc, text.as_bytes(), sink),
        Command::Check(name) => { print_file(alloc, Asked::Counts, name, files, sink) }
        Command::Iors(name) => { print_file(alloc, Asked::References, name, files, sink) }
        Command::Migrate { config, text } => {
            migrate_file(alloc, config, text.as_bytes(), files, sink)
        }
        Command::Names => serve_names(alloc, source, sink),
        Command::Explain(asked) => {
            let calls = sought(asked.calls);
            explain_files(
                alloc,
                asked.config,
                asked.journal,
                calls,
                asked.limit,
                files,
                sink,
            )
        }
        Command::Audit(asked) => audit_files(alloc, asked, files, sink),
    }
}
