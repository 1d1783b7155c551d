//! What entries leave as it was.
ghost use Rattle.std.specs.Prelude.{◌≡◌, ℕ, true, List, ◌∷◌};
ghost use Rattle.poa_base.specs.declared.Config.{Config};
ghost use Rattle.poa_base.specs.declared.Entry.{Entry};
ghost use Rattle.history_standing.specs.Changes.{standing};
ghost use Rattle.poa_history.specs.Entries.{changes_nothing};

/// A connection that comes or leaves, a call that comes, a reply that is taken, a servant that acts and a worker
/// that gives up leave what stands as it was. So nothing needs to be done for them.
pub fn what_changes_nothing()
    ensures { (c : Config) (run : ℕ) (past : List Entry) (e : Entry) → changes_nothing e ≡ true
        → standing c run (e ∷ past) ≡ standing c run past }
{}
