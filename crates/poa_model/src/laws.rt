//! What is kept of a history, by its definitions.
ghost use Rattle.std.specs.Prelude.{◌≡◌, ℕ, List};
ghost use Rattle.poa_base.specs.declared.Config.{Config};
ghost use Rattle.poa_base.specs.declared.Entry.{Entry};
ghost use Rattle.poa_base.specs.declared.Sid.{Sid};
ghost use Rattle.poa_history.specs.States.{Stored, state_of, stored};
ghost use Rattle.poa_model.specs.Kept.{kept, state_in, stored_in};

/// The state that an entry left last of a servant, else the one with which it opens, is its state after the history; and
/// what was left last for an id, else what was stored at the opening, is what is stored for it then.
pub fn left_last_is_what_is()
    ensures servants { (c : Config) (run : ℕ) (opened : Stored) (h : List Entry) (s : Sid)
        → state_in c (kept c run opened h).servants s ≡ state_of c run opened h s }
    ensures places { (c : Config) (run : ℕ) (opened : Stored) (h : List Entry) (p : List (List ℕ))
        (oid : List ℕ)
        → stored_in opened (kept c run opened h).places p oid ≡ stored c run opened h p oid }
{}
