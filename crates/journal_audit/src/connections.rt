//! The entries of connections.
ghost use Rattle.std.specs.Prelude.{◌≡◌, ◌↔◌, ◌<◌, IfOk, IsTrue, None, option_map};
ghost use Rattle.poa_base.specs.declared.Entry.TheVariants.{Entered, Arrive, Filled, Left, Collect};
ghost use Rattle.poa_base.specs.declared.limits.TheConstants.{CONNECTIONS};
ghost use Rattle.history_standing.specs.Arrivals as calls;
ghost use Rattle.journal_audit.specs.Judging.{IsJudged, Judges};
ghost use Rattle.journal_audit.specs.Rules.{next_connection};

use crate::breach::Breach;
use crate::calls::{is_open, may_arrive, may_fill};
use crate::judged::Judged;
use crate::rule::Rule;
use core_run::Run;
use poa_base::limits::CONNECTIONS;
use poa_base::{Call, Entry, WantMemory};

/// An entry of a connection that may not follow, where no one entry would be allowed.
fn misplaced() -> Breach
    ensures { result ≡ record { rule = Rule.Connection; due = None } }
{
    Breach {
        rule: Rule::Connection,
        due: None,
    }
}

/// Whether a connection may enter under that number.
fn may_enter(run: &Run, conn: u32) -> bool
    ensures { IsTrue result ↔ ((conn ≡ calls.connections run.now.history) × (conn < CONNECTIONS)) }
{
    conn as u64 == run.connections() && u64::from(conn) < CONNECTIONS
}

/// The entry of the next connection, if there may be one more.
fn next_entered(run: &Run) -> Option<Entry>
    ensures { result ≡ option_map Entered (next_connection run.now.history) }
{
    match run.next_connection() {
        Some(conn) => Some(Entry::Entered { conn }),
        None => None,
    }
}

/// A connection enters.
pub(crate) fn enter(run: &mut Run, conn: u32) -> Result<Option<Breach>, WantMemory>
    ensures { IfOk result (λ breach. Judges (Entered conn) run.old breach run.new) }
{
    if !may_enter(run, conn) {
        return Ok(Some(Breach {
            rule: Rule::Connection,
            due: next_entered(run),
        }));
    }
    run.enter(conn)?;
    Ok(None)
}

/// A call of so many bytes arrives, in a run that takes so many calls.
pub(crate) fn arrive(
    run: &mut Run,
    limit: u64,
    conn: u32,
    size: u64,
    call: Call,
) -> Result<Option<Breach>, WantMemory>
    requires { limit ≡ run.old.limit }
    ensures { IfOk result (λ breach. Judges (Arrive conn size call) run.old breach run.new) }
{
    if !may_arrive(run, limit, conn, size, &call) {
        return Ok(Some(misplaced()));
    }
    run.arrive(conn, call, size)?;
    Ok(None)
}

/// A call fills the run, which takes so many calls.
pub(crate) fn fill(run: &mut Run, limit: u64, conn: u32, size: u64) -> Option<Breach>
    requires { limit ≡ run.old.limit }
    ensures { Judges (Filled conn size) run.old result run.new }
{
    if !may_fill(run, limit, conn, size) {
        return Some(misplaced());
    }
    run.fill(conn, size);
    None
}

/// A connection leaves.
pub(crate) fn leave(run: &mut Run, conn: u32) -> Option<Breach>
    ensures { Judges (Left conn) run.old result run.new }
{
    if !is_open(run, conn) {
        return Some(misplaced());
    }
    run.leave(conn);
    None
}

/// Another reply was due than the one that was collected, or none.
fn miscollected(due: Option<Entry>) -> Breach
    ensures { result ≡ record { rule = Rule.Collecting; due = due } }
{
    Breach {
        rule: Rule::Collecting,
        due,
    }
}

/// A connection is given the reply to an arrival. Where another one is due, the run has given it that.
pub(crate) fn collect(run: &mut Run, conn: u32, arrival: u64) -> Judged
    ensures { IsJudged (Collect conn arrival) run.old result run.new }
{
    let Some(filed) = run.collect(conn) else {
        return Judged::Refused(miscollected(None));
    };
    let due = filed.arrival;
    if due == arrival {
        return Judged::Taken(Some(filed));
    }
    Judged::Refused(miscollected(Some(Entry::Collect { conn, arrival: due })))
}
