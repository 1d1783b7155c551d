//! Room for what comes.
ghost use Rattle.std.specs.Prelude.{◌≡◌, ◌+◌, ◌≤◌, ◌<◌, ◌∷◌, None, true, ◌⊎◌, IsOk, OnOk};
ghost use Rattle.std.specs.Option.{IsSomeAnd};
ghost use Rattle.poa_history.specs.Runs.{IsRun};
ghost use Rattle.core_outboxes.specs.Desk.{HasRoomForOne};
ghost use Rattle.core_run.specs.Agrees.{history};
ghost use Rattle.core_run.specs.Kept.{HasSpace, IsKept, IsReady, life, needed, to_come};
ghost use Rattle.core_run.specs.Noting.{HasRoomForEntry};
ghost use Rattle.core_run.specs.ToCome as coming;

use crate::inside::Inside;
use poa_base::{Entry, WantMemory};

/// How many entries of workers may still come that take no memory, at most: each of 16 may have to end what it
/// began, and may give up.
const WORKERS: usize = 32;

/// How many entries may still come that take no memory, and some more; none where that is too many to count.
#[tactic(auto, using(crate::proofs::Endings::workers_few))]
fn most(inside: &Inside) -> Option<usize>
    ensures { IsSomeAnd result (λ n. to_come inside.now + 2 ≤ n) ⊎ (result ≡ None) }
{
    let staying = usize::try_from(inside.tables.tally.staying).ok()?;
    inside
        .desk
        .due
        .checked_add(staying)?
        .checked_add(WORKERS)?
        .checked_add(4)
}

/// Makes room in the journal for one entry more; all else is as it was.
pub fn make_room_in_journal(inside: &mut Inside) -> Result<(), WantMemory>
    requires { IsKept inside.old }
    ensures space { OnOk result (HasSpace 2 inside.new) }
    ensures whole { OnOk result (0 < inside.new.entries.spare) }
    ensures kept { IsKept inside.new }
    ensures desk { inside.new.desk ≡ inside.old.desk }
    ensures tables { inside.new.tables ≡ inside.old.tables }
    ensures life { life inside.new ≡ life inside.old }
{
    let most = most(inside).ok_or(WantMemory)?;
    inside.entries.reserve(most)
}

/// Makes room for one entry more, whatever it is; all else is as it was.
pub fn make_room(inside: &mut Inside) -> Result<(), WantMemory>
    requires { IsKept inside.old }
    ensures ready { OnOk result (IsReady inside.new) }
    ensures kept { IsKept inside.new }
    ensures desk { inside.new.desk ≡ inside.old.desk }
    ensures life { life inside.new ≡ life inside.old }
{
    inside.tables.reserve()?;
    make_room_in_journal(inside)
}

/// Makes room for a call of a connection, and for its reply; all else is as it was.
pub fn make_room_for_call(inside: &mut Inside, conn: u32) -> Result<(), WantMemory>
    requires { IsKept inside.old }
    ensures ready { OnOk result (IsReady inside.new) }
    ensures desk { OnOk result (HasRoomForOne conn inside.new.desk) }
    ensures kept { IsKept inside.new }
    ensures life { life inside.new ≡ life inside.old }
{
    inside.desk.reserve(conn)?;
    make_room(inside)
}

/// Whether an entry only ends what was begun.
fn is_ending(entry: &Entry) -> bool
    ensures { result ≡ coming.is_ending entry.now }
{
    matches!(entry, Entry::Done { .. } | Entry::Etherealized { .. })
}

/// Whether an entry needs room in the journal alone.
fn needs_journal_alone(entry: &Entry) -> bool
    ensures { result ≡ coming.needs_journal_alone entry.now }
{
    matches!(
        entry,
        Entry::Admit { .. } | Entry::Run { .. } | Entry::TakeOut { .. }
    )
}

/// Makes room for an entry of a worker; all else is as it was. One that only ends what was begun has its room since
/// then, and takes no memory.
#[tactic(auto, using(crate::proofs::Ready::ending_room, crate::proofs::Ready::ending_space, crate::proofs::Ready::ready_space, crate::proofs::Ready::ready_entries, crate::proofs::Ready::alone_room))]
pub fn make_room_for(inside: &mut Inside, entry: &Entry) -> Result<(), WantMemory>
    requires kept { IsKept inside.old }
    requires follows { IsRun inside.old.config inside.old.run inside.old.limit
        (entry.now ∷ history inside.old) }
    ensures room { OnOk result (HasRoomForEntry entry.now inside.new) }
    ensures space { OnOk result (HasSpace (needed entry.now) inside.new) }
    ensures kept { IsKept inside.new }
    ensures life { life inside.new ≡ life inside.old }
    ensures ends { coming.is_ending entry.now ≡ true → IsOk result }
{
    if is_ending(entry) {
        return Ok(());
    }
    if needs_journal_alone(entry) {
        return make_room_in_journal(inside);
    }
    make_room(inside)
}
