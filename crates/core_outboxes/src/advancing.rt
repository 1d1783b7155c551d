//! The desk after an entry.
ghost use Rattle.std.specs.Prelude.{◌≡◌, ◌∷◌, ℕ, List, map};
ghost use Rattle.history_standing.specs.Arrivals.{arrivals};
ghost use Rattle.core_standing.specs.Seen.{seen};
ghost use Rattle.core_outboxes.specs.Decided.{AreFiled};
ghost use Rattle.core_outboxes.specs.Owed.{AreOwed};
ghost use Rattle.core_outboxes.specs.Desk as desks;
ghost use Rattle.core_outboxes.specs.Desk.{AreLeft, AreOwedBefore, Comes, Files, HasFiled, HasRoomForOne};
ghost use Rattle.core_outboxes.specs.declared.filed.Filed.{Filed as FiledRow};

use crate::decision::Decision;
use crate::desk::Desk;
use crate::wait::{Ordered, Wait};
use core_standing::Standing;
use poa_base::{Config, Entry};

/// An arrival that is admitted gets what it waits for from now on.
fn set_wait(entry: &Entry, wait: Option<Wait>, desk: &mut Desk)
    ensures owing { desk.new.owing.items
        ≡ map (desks.waited_by entry.now wait) desk.old.owing.items }
    ensures files { (fs : List FiledRow) → Files desk.old fs → Files desk.new fs }
    ensures due { desk.new.due ≡ desk.old.due }
    ensures spare { (conn : ℕ) → HasRoomForOne conn desk.old → HasRoomForOne conn desk.new }
{
    if let Entry::Admit { arrival, .. } = entry {
        desk.set_wait(*arrival, wait);
    }
}

/// An entry comes: it decides this arrival, if one, and each command for which what it waits for has come.
/// `standing` is what stands after it. A call that arrives with it is owed its reply afterwards, by `owe`; what
/// it collects was collected before. Takes no memory.
pub fn advance(
    config: &Config,
    standing: &Standing,
    entry: &Entry,
    decision: Option<Decision>,
    wait: Option<Wait>,
    ordered: Option<Ordered>,
    desk: &mut Desk,
)
    requires comes { Comes config.now entry.now (seen standing.now) decision wait ordered
        desk.old.owing.items }
    ensures before { (k : Comes config.now entry.now (seen standing.now) decision wait ordered
        desk.old.owing.items)
        → AreOwedBefore config.now k.run k.past entry.now desk.new.owing.items }
    ensures owed { (k : Comes config.now entry.now (seen standing.now) decision wait ordered
        desk.old.owing.items)
        → arrivals (entry.now ∷ k.past) ≡ arrivals k.past
        → AreOwed config.now k.run (entry.now ∷ k.past) desk.new.owing.items }
    ensures filed { (k : Comes config.now entry.now (seen standing.now) decision wait ordered
        desk.old.owing.items)
        → HasFiled (AreLeft config.now k.run k.opened k.past entry.now) desk.old
        → HasFiled (AreFiled config.now k.run k.opened (entry.now ∷ k.past)) desk.new }
    ensures due { desk.new.due ≡ desk.old.due }
    ensures spare { (conn : ℕ) → HasRoomForOne conn desk.old → HasRoomForOne conn desk.new }
{
    set_wait(entry, wait, desk);
    desk.decide(config, standing, decision, ordered);
}
