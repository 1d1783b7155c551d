//! What an entry that isn't legal says of its history.
ghost use Rattle.std.specs.Prelude.{ℕ, List, reverse};
ghost use Rattle.poa_base.specs.declared.Config.{Config};
ghost use Rattle.poa_base.specs.declared.Entry.{Entry};
ghost use Rattle.poa_history.specs.Legal.{IsLegal};
ghost use Rattle.poa_model.specs.Illegal.{IsFirstIllegal};

/// A history with an entry that isn't legal isn't legal, whatever follows that entry.
pub fn one_illegal_entry_spoils_all()
    ensures { (c : Config) (run limit : ℕ) (h : List Entry) (place : ℕ)
        → IsFirstIllegal c run limit h place
        → IsLegal c run limit (reverse h) → ⊥ }
{}
