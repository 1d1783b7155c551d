//! Laws of whose the entries of a run are.
ghost use Rattle.std.specs.Prelude.{◌≡◌, ◌<◌, ℕ, List, Some};
ghost use Rattle.poa_base.specs.declared.Entry.{Entry};
ghost use Rattle.history_standing.specs.Trees.{In};
ghost use Rattle.history_standing.specs.Arrivals.{connections};
ghost use Rattle.poa_history.specs.declared.givens.Givens.{Givens};
ghost use Rattle.poa_history.specs.GivenRuns.{IsHistory};
ghost use Rattle.poa_history.specs.Owners.{owner_of};

/// Each entry of a connection is one of a connection that entered.
pub fn owners_entered()
    ensures { (g : Givens) (h : List Entry) → IsHistory g h → (e : Entry) → In e h → (conn : ℕ)
        → owner_of e ≡ Some conn
        → conn < connections h }
{}
