//! A request is admitted to be served: the third of the entries that come most, made without the ways of the others.
ghost use Rattle.std.specs.Prelude.{◌≡◌, ◌∷◌, true, OnOk, OnErr};
ghost use Rattle.poa_base.specs.declared.Entry.TheVariants.{Admit};
ghost use Rattle.poa_base.specs.declared.Verdict.TheVariants.{Serve};
ghost use Rattle.poa_history.specs.Life.{with_entry};
ghost use Rattle.poa_history.specs.Runs.{IsRun};
ghost use Rattle.core_run.specs.Agrees.{history};
ghost use Rattle.core_run.specs.Kept.{IsKept, life};
ghost use Rattle.core_run.specs.Service as service;

use crate::brought::Brought;
use crate::inside::Inside;
use crate::noting::note;
use crate::room::make_room_in_journal;
use crate::turning::call_at;
use core_state::{Coming, advance};
use history_standing::Stage;
use poa_base::{Entry, Verdict, WantMemory};

/// Whether a request is admitted with an entry to an activation, to a default servant, or to one that is located.
pub fn begins(entry: &Entry) -> bool
    ensures { result ≡ service.begins entry.now }
{
    matches!(
        entry,
        Entry::Admit {
            verdict: Verdict::Serve(_) | Verdict::Preset(_) | Verdict::Locator(_),
            ..
        }
    )
}

/// Such an entry is taken: the request is in flight and it stands in the journal, or nothing changes. It decides nothing,
/// does no command and frees nothing.
pub fn begin(inside: &mut Inside, entry: Entry) -> Result<(), WantMemory>
    requires kept { IsKept inside.old }
    requires follows { IsRun inside.old.config inside.old.run inside.old.limit
        (entry ∷ history inside.old) }
    requires kind { service.begins entry ≡ true }
    ensures kept { IsKept inside.new }
    ensures ok { OnOk result (life inside.new ≡ with_entry entry (life inside.old)) }
    ensures err { OnErr result (life inside.new ≡ life inside.old) }
{
    make_room_in_journal(inside)?;
    let stage = Stage::Free;
    let call = call_at(&inside.entries, &inside.tables.calls, &entry, stage);
    let coming = Coming {
        entry: &entry,
        stage,
        call,
        runs: None,
    };
    advance(
        inside.alloc,
        &inside.config,
        inside.run,
        &coming,
        &mut inside.state,
    )?;
    note(inside, entry, stage, Brought::nothing());
    Ok(())
}

/// The Admit of a request to the activation of a number.
fn admission(worker: u32, arrival: u64, number: u32) -> Entry
    ensures { result ≡ Admit worker arrival (Serve number) }
{
    Entry::Admit {
        worker,
        arrival,
        verdict: Verdict::Serve(number),
    }
}

/// The same where it is an activation that serves the request. The adapter is that of the activation, so nothing is asked of
/// the key.
pub fn serve(inside: &mut Inside, worker: u32, arrival: u64, number: u32) -> Result<(), WantMemory>
    requires kept { IsKept inside.old }
    requires follows { IsRun inside.old.config inside.old.run inside.old.limit
        (Admit worker arrival (Serve number) ∷ history inside.old) }
    ensures kept { IsKept inside.new }
    ensures ok { OnOk result (life inside.new
        ≡ with_entry (Admit worker arrival (Serve number)) (life inside.old)) }
    ensures err { OnErr result (life inside.new ≡ life inside.old) }
{
    make_room_in_journal(inside)?;
    if !core_standing::serve(arrival, number, &mut inside.state.standing)? {
        return begin(inside, admission(worker, arrival, number));
    }
    let entry = admission(worker, arrival, number);
    note(inside, entry, Stage::Free, Brought::nothing());
    Ok(())
}
