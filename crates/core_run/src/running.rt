//! A request that is served runs, and ends: two of the entries that come most, made without the ways of the others.
ghost use Rattle.std.specs.Prelude.{◌≡◌, ◌∷◌, reverse, OnOk, OnErr, option_copied};
ghost use Rattle.poa_base.specs.declared.Entry.TheVariants.{Run, Done};
ghost use Rattle.core_arrivals.specs.Placed.{CallsAgree};
ghost use Rattle.poa_history.specs.Life.{with_entry};
ghost use Rattle.poa_history.specs.Runs.{IsRun};
ghost use Rattle.poa_history.specs.States.{call_run};
ghost use Rattle.core_run.specs.Agrees.{history};
ghost use Rattle.core_run.specs.Kept.{IsKept, life};
ghost use Rattle.core_run.specs.Service as service;

use crate::freeing::landed;
use crate::inside::Inside;
use crate::noting::note_service;
use crate::room::make_room_in_journal;
use crate::serving::servant_in;
use core_arrivals::{Calls, calls, workers};
use core_outboxes::Decision;
use core_standing::land;
use core_state::act;
use held_queue::Freed;
use history_standing::Stage;
use journal_entries::Entries;
use poa_base::{Call, Entry, Outcome, Reply, WantMemory};
use poa_history::workers::arrival_in;

/// The call of the request that a worker serves.
fn call_served<'a>(entries: &'a Entries, known: &Calls, stage: Stage) -> Option<&'a Call>
    ensures { CallsAgree (reverse entries.now.items) known.now.places.items
        → option_copied result ≡ call_run (reverse entries.now.items) stage }
{
    match stage {
        Stage::Serving(arrival) => calls::call(entries, known, arrival),
        _ => None,
    }
}

/// What a servant that ran decides: the request that its worker serves.
fn decided_by(stage: Stage, outcome: Option<Outcome>) -> Option<Decision>
    ensures { result ≡ service.decided_by stage outcome }
{
    match (stage, outcome) {
        (Stage::Serving(arrival), Some(outcome)) => Some(Decision {
            arrival,
            reply: Reply::Outcome(outcome),
        }),
        _ => None,
    }
}

/// The request that a worker serves runs: its servant acts, and what comes of that is the reply. All of it takes effect
/// and stands in the journal, or nothing changes.
pub fn run(inside: &mut Inside, worker: u32) -> Result<(), WantMemory>
    requires kept { IsKept inside.old }
    requires follows { IsRun inside.old.config inside.old.run inside.old.limit
        (Run worker ∷ history inside.old) }
    ensures kept { IsKept inside.new }
    ensures ok { OnOk result (life inside.new ≡ with_entry (Run worker) (life inside.old)) }
    ensures err { OnErr result (life inside.new ≡ life inside.old) }
{
    make_room_in_journal(inside)?;
    let stage = workers::stage(&inside.tables.workers, worker);
    let call = call_served(&inside.entries, &inside.tables.calls, stage);
    let runs = servant_in(
        &inside.config,
        &inside.state.standing,
        &inside.entries,
        stage,
    )?;
    let outcome = act(inside.alloc, call, runs, &mut inside.state.servants)?;
    let decision = decided_by(stage, outcome);
    let entry = Entry::Run { worker };
    note_service(inside, entry, stage, decision, Freed::nothing());
    Ok(())
}

/// The request that a worker ran ends. Takes no memory.
pub fn end(inside: &mut Inside, worker: u32)
    requires kept { IsKept inside.old }
    requires follows { IsRun inside.old.config inside.old.run inside.old.limit
        (Done worker ∷ history inside.old) }
    ensures kept { IsKept inside.new }
    ensures ended { life inside.new ≡ with_entry (Done worker) (life inside.old) }
{
    let stage = workers::stage(&inside.tables.workers, worker);
    let freed = landed(&inside.state.standing, stage);
    land(
        &inside.config,
        arrival_in(stage),
        &mut inside.state.standing,
    );
    note_service(inside, Entry::Done { worker }, stage, None, freed);
}
