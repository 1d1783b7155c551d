//! Who looks on at one connection, as a journal is audited.
ghost use Rattle.std.specs.Prelude.{◌≡◌, ◌↔◌, ◌<◌, ◌^◌, ◌&&◌, ◌||◌, not, [], length, IfOk, IfSome, IsTrue, OnOk, true};
ghost use Rattle.poa_base.specs.declared.Entry.TheVariants.{Arrive};
ghost use Rattle.poa_history.specs.Life.{Life};
ghost use Rattle.session_laws.specs.Records as records;
ghost use Rattle.session_laws.specs.Records.{IsPaidBy};
ghost use Rattle.journal_audit.specs.Auditing.{Takes};
ghost use Rattle.journal_audit.specs.Looking.{Gets, IsGivenIn, IsOverFor, IsSessionIn, Knows, Looks, LooksWhere, Sees, hears_any, is_given_to};

use crate::auditor::Auditor;
use crate::link::Link;
use crate::listener::Listener;
use crate::written::Written;
use core_outboxes::Filed;
use core_run::Run;
use poa_base::{Call, Entry, WantMemory};
use session_laws::Peer;
use std::alloc::Global;

/// Who looks on at one connection, as a journal is audited, and compares what was read and written over it with the calls
/// that arrive and the replies that are given.
#[derive(Drop)]
pub(crate) struct Onlooker<'a> {
    pub(crate) link: Link<'a>,
    /// Hears the input as a client's. Whether the peer is one shows only as its calls arrive.
    pub(crate) client: Listener<'a>,
    /// Hears it as an administrator's.
    pub(crate) administrator: Listener<'a>,
    /// Whether a line arrived: the peer is an administrator then.
    pub(crate) had_line: bool,
    /// Whether a call of the connection filled the run.
    pub(crate) was_filled: bool,
    pub(crate) written: Written<'a>,
}

impl<'a> Onlooker<'a> {
    /// One who has seen no entry yet.
    pub(crate) fn new(alloc: Global, link: Link<'a>) -> Onlooker<'a>
        requires { length link.input < 2 ^ 62 }
        ensures looks { (life : Life) → life.history ≡ [] → Looks life result }
        ensures link { result.link ≡ link.entry }
    {
        let client = Listener::new(alloc, Peer::Client, link.input());
        let administrator = Listener::new(alloc, Peer::Administrator, link.input());
        let written = Written::new(alloc, link.output());
        Onlooker {
            link,
            client,
            administrator,
            written,
            had_line: false,
            was_filled: false,
        }
    }

    /// Looks on as an auditor takes the next entry.
    pub(crate) fn attend(&mut self, auditor: &mut Auditor, entry: Entry) -> Result<(), WantMemory>
        requires limited { auditor.old.limit ≡ auditor.old.run.limit }
        requires looks { LooksWhere auditor.old.refusal auditor.old.run self.old }
        ensures takes { OnOk result (Takes entry auditor.old auditor.new) }
        ensures looks { OnOk result (LooksWhere auditor.new.refusal auditor.new.run self.new) }
        ensures link { self.new.link ≡ self.old.link }
    {
        if auditor.refusal.is_some() {
            return Ok(());
        }
        let is_given = self.is_given(&entry);
        self.see(&entry)?;
        let given = auditor.follow(entry)?;
        if is_given { self.get(given) } else { Ok(()) }
    }

    /// Whether the bytes of the link are a session of its connection that ended well. The run is asked for the connection's
    /// next reply, and not of use behind that.
    pub(crate) fn is_session(&mut self, run: &mut Run) -> Result<bool, WantMemory>
        requires { Looks run.old self.old }
        ensures { IfOk result (λ yes. IsTrue yes ↔ IsSessionIn run.old self.old.link) }
    {
        let is_paid = is_paid(run, self.link.conn());
        let is_over = self.is_over()?;
        let is_whole = self.written.is_whole();
        Ok(is_ended(is_over, is_paid, self.was_filled, is_whole))
    }

    /// Whether the entry gives the connection a reply.
    fn is_given(&self, entry: &Entry) -> bool
        ensures { result ≡ is_given_to self.now.link.conn entry.now }
    {
        match entry {
            Entry::Collect { conn, .. } => *conn == self.link.conn(),
            _ => false,
        }
    }

    /// Looks at an entry that comes.
    fn see(&mut self, entry: &Entry) -> Result<(), WantMemory>
        ensures sees { OnOk result (Sees entry.now self.old self.new) }
        ensures link { self.new.link ≡ self.old.link }
    {
        match entry {
            Entry::Arrive { conn, size, call } => {
                if *conn == self.link.conn() {
                    return self.arrive(*size, call);
                }
            }
            Entry::Filled { conn, .. } => {
                if *conn == self.link.conn() {
                    self.was_filled = true;
                }
            }
            _ => {}
        }
        Ok(())
    }

    /// A call of so many bytes arrives on the connection.
    fn arrive(&mut self, size: u64, call: &Call) -> Result<(), WantMemory>
        ensures knows { OnOk result
            (Knows (Arrive self.old.link.conn size call.now) self.old self.new) }
        ensures link { self.new.link ≡ self.old.link }
    {
        self.client.hear(call, size)?;
        self.administrator.hear(call, size)?;
        self.had_line = had_line(call, self.had_line);
        Ok(())
    }

    /// The connection gets a reply, if it is one.
    fn get(&mut self, given: Option<Filed>) -> Result<(), WantMemory>
        requires { IfSome given (λ filed. IsGivenIn self.old filed) }
        ensures gets { OnOk result (IfSome given (λ filed. Gets filed self.old self.new)) }
        ensures link { self.new.link ≡ self.old.link }
    {
        let Some(filed) = given else {
            return Ok(());
        };
        if !self.hears() {
            return Ok(());
        }
        self.written.give(&filed.head, &filed.reply)
    }

    /// Whether the calls that arrived are those of a peer of either kind.
    fn hears(&self) -> bool
        ensures { result ≡ hears_any self.now }
    {
        self.client.fits() || self.administrator.fits()
    }

    /// Whether no call of the peer is left, and its input ends well.
    fn is_over(&mut self) -> Result<bool, WantMemory>
        ensures over { IfOk result (λ yes. IsOverFor yes self.old) }
        ensures written { self.new.written ≡ self.old.written }
        ensures filled { self.new.was_filled ≡ self.old.was_filled }
    {
        if self.had_line {
            self.administrator.is_over()
        } else {
            self.client.is_over()
        }
    }
}

/// Whether all calls arrived, all replies are given, no call filled the run, and nothing but the replies was written.
fn is_ended(is_over: bool, is_paid: bool, was_filled: bool, is_whole: bool) -> bool
    ensures { result ≡ (is_over && (is_paid && (not was_filled && is_whole))) }
{
    is_over && (is_paid && (!was_filled && is_whole))
}

/// Whether a call is a line, or one arrived before it.
fn had_line(call: &Call, had: bool) -> bool
    ensures { result ≡ (records.is_line call.now || had) }
{
    had || matches!(call, Call::Line { .. })
}

/// Whether each call of the connection that asks a reply was given it. The run gives the connection its next reply, if it has
/// one.
fn is_paid(run: &mut Run, conn: u32) -> bool
    ensures { IsTrue result ↔ IsPaidBy run.old.history conn }
{
    run.keeps_laws();
    run.owed(conn) == 0 && run.collect(conn).is_none()
}
