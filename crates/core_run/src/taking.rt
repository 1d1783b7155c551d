//! A worker's entry is taken.
ghost use Rattle.std.specs.Prelude.{◌≡◌, ◌∷◌, true, false, IsOk, OnOk, OnErr};
ghost use Rattle.poa_history.specs.Runs.{IsRun};
ghost use Rattle.poa_history.specs.Entries.{is_turn};
ghost use Rattle.poa_history.specs.Life.{with_entry};
ghost use Rattle.core_run.specs.Agrees.{history};
ghost use Rattle.core_run.specs.Kept.{IsKept, life};
ghost use Rattle.core_run.specs.ToCome.{is_ending};
ghost use Rattle.core_run.specs.Turning.{is_run};

use crate::admitting::{begin, begins, serve};
use crate::inside::Inside;
use crate::noting::note;
use crate::room::make_room_for;
use crate::running::{end, run};
use crate::serving::servant_in;
use crate::turning::{bring, call_at};
use core_arrivals::workers;
use core_state::Coming;
use poa_base::{Entry, Verdict, WantMemory};

/// An entry of a worker, but a Run, is taken. It stands by itself, so that those that come most get nothing ready for it.
#[inline(never)]
fn take_other(inside: &mut Inside, entry: Entry) -> Result<(), WantMemory>
    requires kept { IsKept inside.old }
    requires follows { IsRun inside.old.config inside.old.run inside.old.limit
        (entry ∷ history inside.old) }
    requires turn { is_turn entry ≡ true }
    requires kind { is_run entry ≡ false }
    ensures kept { IsKept inside.new }
    ensures ok { OnOk result (life inside.new ≡ with_entry entry (life inside.old)) }
    ensures err { OnErr result (life inside.new ≡ life inside.old) }
    ensures ends { is_ending entry ≡ true → IsOk result }
{
    let stage = workers::stage_at(&inside.tables.workers, &entry);
    make_room_for(inside, &entry)?;
    let call = call_at(&inside.entries, &inside.tables.calls, &entry, stage);
    let runs = servant_in(
        &inside.config,
        &inside.state.standing,
        &inside.entries,
        stage,
    )?;
    let coming = Coming {
        entry: &entry,
        stage,
        call,
        runs,
    };
    let brought = bring(
        inside.alloc,
        &inside.config,
        inside.run,
        &coming,
        &mut inside.state,
    )?;
    note(inside, entry, stage, brought);
    Ok(())
}

/// An entry of a worker that was asked of all that is known, not of its stage alone, is taken.
fn take_asked(inside: &mut Inside, entry: Entry) -> Result<(), WantMemory>
    requires kept { IsKept inside.old }
    requires follows { IsRun inside.old.config inside.old.run inside.old.limit
        (entry ∷ history inside.old) }
    requires turn { is_turn entry ≡ true }
    requires kind { is_run entry ≡ false }
    ensures kept { IsKept inside.new }
    ensures ok { OnOk result (life inside.new ≡ with_entry entry (life inside.old)) }
    ensures err { OnErr result (life inside.new ≡ life inside.old) }
    ensures ends { is_ending entry ≡ true → IsOk result }
{
    if let Entry::Admit {
        worker,
        arrival,
        verdict: Verdict::Serve(number),
    } = &entry
    {
        return serve(inside, *worker, *arrival, *number);
    }
    if begins(&entry) {
        return begin(inside, entry);
    }
    take_other(inside, entry)
}

/// An entry of a worker is taken: all of it takes effect and it stands in the journal, or nothing changes. One that
/// only ends what was begun is always taken.
pub fn take(inside: &mut Inside, entry: Entry) -> Result<(), WantMemory>
    requires kept { IsKept inside.old }
    requires follows { IsRun inside.old.config inside.old.run inside.old.limit
        (entry ∷ history inside.old) }
    requires turn { is_turn entry ≡ true }
    ensures kept { IsKept inside.new }
    ensures ok { OnOk result (life inside.new ≡ with_entry entry (life inside.old)) }
    ensures err { OnErr result (life inside.new ≡ life inside.old) }
    ensures ends { is_ending entry ≡ true → IsOk result }
{
    match entry {
        Entry::Run { worker } => run(inside, worker),
        Entry::Done { worker } => {
            end(inside, worker);
            Ok(())
        }
        entry => take_asked(inside, entry),
    }
}
