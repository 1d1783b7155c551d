//! What an entry changes, and so what stands after a history.
ghost use Rattle.std.specs.Prelude.{◌≡◌, ◌≤◌, ◌<◌, ◌^◌, ◌∷◌, ℕ, List, None, false, true, if◌then◌else◌, length, reverse, option_copied, IfOk, IsOk, OnOk, OnErr};
ghost use Rattle.std.specs.List.{list_any};
ghost use Rattle.poa_base.specs.declared.Entry.{Entry};
ghost use Rattle.poa_base.specs.declared.Entry.TheVariants.{Done, Incarnated, Tried};
ghost use Rattle.history_standing.specs.Changes as changes;
ghost use Rattle.history_standing.specs.Ends.{is_over};
ghost use Rattle.history_standing.specs.Opening as opens;
ghost use Rattle.history_standing.specs.Keys as keys;
ghost use Rattle.history_standing.specs.Logs.{command_in as command_of, is_accepted as accepts};
ghost use Rattle.poa_history.specs.Entries as entries;
ghost use Rattle.core_standing.specs.Kept.{KeepsNoneOver, StandingAgrees, KeptFollows, StandingFollows, WhereItComes, WhereItIsAt};
ghost use Rattle.core_standing.specs.Seen.{seen};

use crate::asked_commands::{command_in, is_accepted};
use crate::beginning::{add_node, opening};
use crate::commands::{command, servant_of};
use crate::flying::{admit, child_tried, end_flight};
use crate::forgetting::forget;
use crate::keys::key_in;
use crate::lives::{complete, etherealize, take_out};
use crate::settling::settle;
use crate::standing::Standing;
use crate::touched::{by_landing, touched_by};
use history_standing::{Phase, Stage};
use poa_base::{Attempt, Call, Config, Entry, Incarnation, Path, Sid, Verdict, WantMemory};
use poa_history::calls::call_of;
use poa_history::workers::{arrival_in, stage};
use std::alloc::Global;

/// The path of the missing child for which the arrival is tried, copied.
fn child_of(standing: &Standing, arrival: Option<u64>) -> Result<Option<Path>, WantMemory>
    ensures { IfOk result
        (λ child. child ≡ changes.child_tried standing.now.flights.items arrival) }
{
    match child_tried(&standing.flights, arrival) {
        Some(path) => Ok(Some(path.clone()?)),
        None => Ok(None),
    }
}

/// The child that an adapter activator made is created.
fn add_child(child: Option<Path>, standing: &mut Standing) -> Result<(), WantMemory>
    ensures ok { OnOk result (seen standing.new ≡ changes.with_child child (seen standing.old)) }
    ensures err { OnErr result (seen standing.new ≡ seen standing.old) }
{
    match child {
        Some(path) => add_node(standing, &path),
        None => Ok(()),
    }
}

/// A trial ends. Where the activator said yes the child is created first, since that may fail.
fn tried(arrival: Option<u64>, answer: Attempt, standing: &mut Standing) -> Result<(), WantMemory>
    ensures ok { OnOk result
        (seen standing.new ≡ changes.with_tried arrival answer (seen standing.old)) }
    ensures err { OnErr result (seen standing.new ≡ seen standing.old) }
    ensures ends { (w : ℕ) → entries.takes_no_memory (Tried w answer) ≡ true → IsOk result }
{
    if let Attempt::Yes { .. } = answer {
        let child = child_of(standing, arrival)?;
        add_child(child, standing)?;
    }
    end_flight(standing, arrival);
    Ok(())
}

/// An incarnation ends.
fn incarnated(
    config: &Config,
    stage: Stage,
    answer: &Incarnation,
    standing: &mut Standing,
) -> Result<(), WantMemory>
    ensures ok { OnOk result
        (seen standing.new ≡ changes.with_incarnated config.now stage answer.now
        (seen standing.old)) }
    ensures err { OnErr result (seen standing.new ≡ seen standing.old) }
    ensures ends { (w : ℕ) → entries.names_servant (Incarnated w answer.now) ≡ false → IsOk result }
    ensures named { length config.now.servants ≤ 2 ^ 32 → IsOk result }
{
    let Stage::Incarnating(arrival, number) = stage else {
        return Ok(());
    };
    match answer {
        Incarnation::Fresh(_) => {
            complete(standing, number, Phase::Complete(Sid::Fresh(number)));
        }
        Incarnation::Named(name) => {
            let phase = servant_of(config, name)?;
            complete(standing, number, phase);
        }
        Incarnation::Double | Incarnation::Forward(_) | Incarnation::Raise(_) => {
            complete(standing, number, Phase::Void);
            end_flight(standing, Some(arrival));
        }
    }
    Ok(())
}

/// The servant that a worker takes down is etherealized.
fn etherealized(stage: Stage, standing: &mut Standing)
    ensures { seen standing.new ≡ changes.with_etherealized stage (seen standing.old) }
{
    if let Stage::Removing(number) = stage {
        etherealize(standing, number);
    }
}

/// An Admit takes effect: the command is done, or the request begins.
fn admitted(
    alloc: Global,
    config: &Config,
    run: u32,
    arrival: u64,
    call: Option<&Call>,
    verdict: &Verdict,
    standing: &mut Standing,
) -> Result<(), WantMemory>
    ensures ok { OnOk result
        (seen standing.new ≡ changes.with_command config.now run
        (if accepts verdict.now then command_of (option_copied call.entry) else None)
        (changes.with_admitted arrival (keys.key_in (option_copied call.entry)) verdict.now
        (seen standing.old))) }
    ensures err { OnErr result (seen standing.new ≡ seen standing.old) }
{
    if is_accepted(verdict) {
        return command(alloc, config, run, command_in(call), standing);
    }
    admit(alloc, standing, arrival, key_in(call), verdict)
}

/// What an entry changes, after the entries before it.
fn change(
    alloc: Global,
    config: &Config,
    run: u32,
    entry: &Entry,
    stage: Stage,
    call: Option<&Call>,
    standing: &mut Standing,
) -> Result<(), WantMemory>
    ensures ok { WhereItComes entry.now stage (option_copied call.entry)
        (λ past. OnOk result (seen standing.new
        ≡ changes.changed config.now run past entry.now (seen standing.old))) }
    ensures err { OnErr result (seen standing.new ≡ seen standing.old) }
    ensures ends { entries.takes_no_memory entry.now ≡ true
        → entries.names_servant entry.now ≡ false → IsOk result }
    ensures named { entries.takes_no_memory entry.now ≡ true → length config.now.servants ≤ 2 ^ 32
        → IsOk result }
{
    match entry {
        Entry::Admit {
            arrival,
            verdict,
            ..
        } => admitted(alloc, config, run, *arrival, call, verdict, standing)?,
        Entry::Tried { answer, .. } => tried(arrival_in(stage), *answer, standing)?,
        Entry::Incarnated { answer, .. } => incarnated(config, stage, answer, standing)?,
        Entry::Done { .. } => end_flight(standing, arrival_in(stage)),
        Entry::TakeOut { activation, .. } => take_out(standing, *activation),
        Entry::Etherealized { .. } => etherealized(stage, standing),
        _ => {}
    }
    Ok(())
}

/// Whether something may have ended with an entry.
fn may_end(entry: &Entry) -> bool
    ensures { result ≡ entries.may_end entry.now }
{
    match entry {
        Entry::Admit { verdict, .. } => is_accepted(verdict),
        Entry::Tried { .. }
        | Entry::Incarnated { .. }
        | Entry::Done { .. }
        | Entry::TakeOut { .. }
        | Entry::Etherealized { .. } => true,
        _ => false,
    }
}

/// Whether the servant of an activation leaves with an entry.
fn is_removal(entry: &Entry) -> bool
    ensures { result ≡ entries.is_removal entry.now }
{
    match entry {
        Entry::TakeOut { .. } | Entry::Etherealized { .. } => true,
        _ => false,
    }
}

/// An entry is made after those before it, and what has ended goes. It is given what its worker had begun and,
/// for an Admit, the call. Fails for want of memory, or of a number of 32 bits; then nothing is changed. An Admit,
/// and a trial that made the child, may fail, and an incarnation by a servant whose number has more than 32 bits.
pub fn advance(
    alloc: Global,
    config: &Config,
    run: u32,
    entry: &Entry,
    stage: Stage,
    call: Option<&Call>,
    standing: &mut Standing,
) -> Result<(), WantMemory>
    ensures ok { StandingFollows config.now run entry.now stage (option_copied call.entry)
        (seen standing.old) result (seen standing.new) }
    ensures err { OnErr result (seen standing.new ≡ seen standing.old) }
    ensures ends { entries.takes_no_memory entry.now ≡ true
        → entries.names_servant entry.now ≡ false → IsOk result }
    ensures named { entries.takes_no_memory entry.now ≡ true → length config.now.servants ≤ 2 ^ 32
        → IsOk result }
{
    let touched = touched_by(entry, stage, &standing.flights);
    change(alloc, config, run, entry, stage, call, standing)?;
    if may_end(entry) {
        settle(config, standing, touched, false);
    }
    Ok(())
}

/// Whether an entry may begin an activation.
fn may_begin(entry: &Entry) -> bool
    ensures { result ≡ entries.may_begin entry.now }
{
    match entry {
        Entry::Admit { .. } => true,
        _ => false,
    }
}

/// Whether there is a number of 32 bits for the activation that an entry may begin.
fn has_number(entry: &Entry, standing: &Standing) -> Result<(), WantMemory>
    ensures few { OnOk result
        (entries.may_begin entry.now ≡ true → length (seen standing.now).activations < 4294967296) }
    ensures ends { entries.may_begin entry.now ≡ false → IsOk result }
{
    if may_begin(entry) {
        standing.begun()?;
    }
    Ok(())
}

/// An entry is made after those before it, what has ended goes, and those of the activations that are over then are
/// forgotten, where those that were over before it had been. It is given, and fails, as `advance`.
pub fn advance_kept(
    alloc: Global,
    config: &Config,
    run: u32,
    entry: &Entry,
    stage: Stage,
    call: Option<&Call>,
    standing: &mut Standing,
) -> Result<(), WantMemory>
    ensures ok { KeptFollows config.now run entry.now stage (option_copied call.entry)
        (seen standing.old) result (seen standing.new) }
    ensures forgets { (past : List Entry) → StandingAgrees config.now run past (seen standing.old)
        → KeepsNoneOver config.now (seen standing.old)
        → stage ≡ entries.stage_at past entry.now
        → option_copied call.entry ≡ entries.call_admitted past entry.now
        → OnOk result (list_any (is_over config.now) standing.new.activations.kept ≡ false) }
    ensures err { OnErr result (seen standing.new ≡ seen standing.old) }
    ensures ends { entries.takes_no_memory entry.now ≡ true
        → entries.names_servant entry.now ≡ false → IsOk result }
    ensures named { entries.takes_no_memory entry.now ≡ true → length config.now.servants ≤ 2 ^ 32
        → IsOk result }
{
    has_number(entry, standing)?;
    let touched = touched_by(entry, stage, &standing.flights);
    standing.activations.numbers();
    change(alloc, config, run, entry, stage, call, standing)?;
    if may_end(entry) {
        settle(config, standing, touched, is_removal(entry));
        forget(config, standing, touched);
        standing.activations.numbers();
    } else {
        standing.activations.numbers();
    }
    Ok(())
}

/// The request of the arrival that a worker is at ends, and what has ended with it goes, as `advance_kept` does it with the
/// Done. Takes no memory.
pub fn land(config: &Config, arrival: Option<u64>, standing: &mut Standing)
    ensures lands { WhereItIsAt config.now arrival (seen standing.old)
        (λ run past w. StandingAgrees config.now run (Done w ∷ past) (seen standing.new)) }
    ensures forgets { WhereItIsAt config.now arrival (seen standing.old)
        (λ run past w. KeepsNoneOver config.now (seen standing.old)
        → list_any (is_over config.now) standing.new.activations.kept ≡ false) }
{
    let touched = by_landing(arrival, &standing.flights);
    standing.activations.numbers();
    end_flight(standing, arrival);
    settle(config, standing, touched, false);
    forget(config, standing, touched);
    standing.activations.numbers();
}

/// What the worker of an entry had begun.
fn stage_before(past: &[Entry], entry: &Entry) -> Stage
    ensures { result ≡ entries.stage_at (reverse past.now) entry.now }
{
    match entry {
        Entry::Admit { worker, .. }
        | Entry::Tried { worker, .. }
        | Entry::Incarnated { worker, .. }
        | Entry::Run { worker }
        | Entry::Done { worker }
        | Entry::TakeOut { worker, .. }
        | Entry::Etherealized { worker, .. } => stage(past, *worker),
        _ => Stage::Free,
    }
}

/// The call that an entry admits.
fn call_admitted<'a>(past: &'a [Entry], entry: &Entry) -> Option<&'a Call>
    ensures { option_copied result ≡ entries.call_admitted (reverse past.now) entry.now }
{
    match entry {
        Entry::Admit { arrival, .. } => call_of(past, *arrival),
        _ => None,
    }
}

/// The entries of a history are made, from what stands before the first.
fn follow(
    alloc: Global,
    config: &Config,
    run: u32,
    history: &[Entry],
    standing: &mut Standing,
) -> Result<(), WantMemory>
    ensures { seen standing.old ≡ opens.opening config.now run
        → OnOk result (seen standing.new ≡ changes.standing config.now run (reverse history.now)) }
{
    for (i, entry) in history.iter().enumerate() {
        let past = &history[..i];
        let stage = stage_before(past, entry);
        let call = call_admitted(past, entry);
        advance(alloc, config, run, entry, stage, call, standing)?;
    }
    Ok(())
}

/// What stands after a history. Fails for want of memory, or of a number of 32 bits.
pub fn standing_of(
    alloc: Global,
    config: &Config,
    run: u32,
    history: &[Entry],
) -> Result<Standing, WantMemory>
    ensures { IfOk result
        (λ standing. seen standing ≡ changes.standing config.now run (reverse history.now)) }
{
    let mut standing = opening(alloc, config, run)?;
    follow(alloc, config, run, history, &mut standing)?;
    Ok(standing)
}
