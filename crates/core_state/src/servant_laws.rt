//! What holds of servants that are in the states of a history.
ghost use Rattle.std.specs.Prelude.{◌≡◌, ℕ, List};
ghost use Rattle.poa_base.specs.declared.Config.{Config};
ghost use Rattle.poa_base.specs.declared.Entry.{Entry};
ghost use Rattle.poa_history.specs.Alone.{IsGivenAlone};
ghost use Rattle.poa_history.specs.Bounds.{IsWithinLimits};
ghost use Rattle.poa_history.specs.Legal.{IsLegal};
ghost use Rattle.poa_history.specs.Sound.{IsGiven};
ghost use Rattle.history_standing.specs.Stages.{stage};
ghost use Rattle.poa_history.specs.States.{Stored};
ghost use Rattle.history_standing.specs.declared.stage.Stage.{Stage};
ghost use Rattle.core_state.specs.Holds.{ServantsAgree};
ghost use Rattle.core_state.specs.Kept.{Kept};
ghost use Rattle.core_state.specs.Runs.{HasServant};
ghost use Rattle.core_state.specs.Steps.{IsUnchanged};

/// Where no memory was left, the servants are still in the states of their history.
pub fn unchanged_servants_hold()
    ensures { (c : Config) (run : ℕ) (opened : Stored) (past : List Entry) (old new : Kept)
        → IsUnchanged old new
        → ServantsAgree c run opened past old → ServantsAgree c run opened past new }
{}

/// A request that is to run has its servant: that of its activation, the default servant of its adapter, or the
/// one that a servant locator gave.
pub fn requests_have_their_servants()
    ensures { (c : Config) (run limit : ℕ) (h : List Entry) → IsGiven c run → IsGivenAlone c run
        → IsWithinLimits c limit
        → IsLegal c run limit h → (w r : ℕ) → stage h w ≡ Stage.Serving r → HasServant c run h r }
{}
