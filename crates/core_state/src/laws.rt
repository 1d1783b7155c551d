//! What is kept answers every question as what stands by the history does. An activation that is over answers none of
//! them: its servant is in no map, its id is free, it isn't due, and no worker is at it.
ghost use Rattle.std.specs.Prelude.{ℕ, List};
ghost use Rattle.poa_base.specs.declared.Config.{Config};
ghost use Rattle.poa_base.specs.declared.Entry.{Entry};
ghost use Rattle.poa_history.specs.Alone.{IsGivenAlone};
ghost use Rattle.poa_history.specs.Bounds.{IsWithinLimits};
ghost use Rattle.poa_history.specs.Legal.{IsLegal};
ghost use Rattle.poa_history.specs.Sound.{IsGiven};
ghost use Rattle.history_standing.specs.Standings.{Standing};
ghost use Rattle.core_standing.specs.Answers.{AnswersAs};
ghost use Rattle.core_standing.specs.Kept.{StandingAgrees};

/// After a legal history what is kept, where some activations that are over may be forgotten, answers as what stands.
pub fn what_is_kept_answers()
    ensures { (c : Config) (run limit : ℕ) (h : List Entry) → IsGiven c run → IsGivenAlone c run
        → IsWithinLimits c limit
        → IsLegal c run limit h
        → (t : Standing) → StandingAgrees c run h t → AnswersAs c run h t }
{}
