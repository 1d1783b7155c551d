//! An entry comes behind the journal.
ghost use Rattle.std.specs.Prelude.{◌≡◌, true};
ghost use Rattle.journal_entries.specs.Rows.{HasRoomFor};
ghost use Rattle.core_run.specs.Agrees.{history};
ghost use Rattle.core_run.specs.Noting.{HasRoomForEntry, IsHalfway, IsNoted};
ghost use Rattle.core_run.specs.Service.{brings, is_service};

use crate::brought::Brought;
use crate::inside::Inside;
use core_outboxes::Decision;
use held_queue::Freed;
use history_standing::Stage;
use poa_base::Entry;

/// Notes an entry, for which there is room, once what stands is that after it. Takes no memory.
pub fn note(inside: &mut Inside, entry: Entry, stage: Stage, brought: Brought)
    requires room { HasRoomForEntry entry inside.old }
    requires halfway { IsHalfway (history inside.old) entry stage brought inside.old }
    ensures { IsNoted entry inside.old inside.new }
{
    let Brought {
        decision,
        wait,
        ordered,
        freed,
    } = brought;
    core_outboxes::advance(
        &inside.config,
        &inside.state.standing,
        &entry,
        decision,
        wait,
        ordered,
        &mut inside.desk,
    );
    inside.tables.advance(&entry, &inside.entries, stage, freed);
    inside.entries.push(entry);
}

/// The same of an entry with which a request runs or ends. Takes no memory.
pub fn note_service(
    inside: &mut Inside,
    entry: Entry,
    stage: Stage,
    decision: Option<Decision>,
    freed: Freed,
)
    requires room { HasRoomFor entry inside.old.entries }
    requires service { is_service entry ≡ true }
    requires halfway { IsHalfway (history inside.old) entry stage (brings decision freed)
        inside.old }
    ensures { IsNoted entry inside.old inside.new }
{
    core_outboxes::advance(
        &inside.config,
        &inside.state.standing,
        &entry,
        decision,
        None,
        None,
        &mut inside.desk,
    );
    inside.tables.serve(&entry, stage, freed);
    inside.entries.push(entry);
}
