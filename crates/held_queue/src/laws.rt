//! What is held stays held, but for what an entry frees.
ghost use Rattle.std.specs.Prelude.{◌≡◌, ◌==◌, ◌<◌, ◌∷◌, ℕ, true, false, List, Option, None};
ghost use Rattle.poa_base.specs.declared.Cause.{Cause};
ghost use Rattle.poa_base.specs.declared.Config.{Config};
ghost use Rattle.poa_base.specs.declared.Entry.{Entry};
ghost use Rattle.poa_choose.specs.declared.Facts.{Facts};
ghost use Rattle.poa_choose.specs.declared.Choice.TheVariants.{Held as HeldBy};
ghost use Rattle.poa_choose.specs.Table.{first_row};
ghost use Rattle.poa_history.specs.Alone.{IsGivenAlone};
ghost use Rattle.history_standing.specs.Arrivals.{arrivals};
ghost use Rattle.poa_history.specs.Bounds.{IsWithinLimits};
ghost use Rattle.poa_history.specs.Legal.{IsLegal};
ghost use Rattle.history_standing.specs.Situations.{facts_of};
ghost use Rattle.poa_history.specs.Sound.{IsGiven};
ghost use Rattle.poa_history.specs.Verdicts.{chosen};
ghost use Rattle.held_queue.specs.Blocks.{Blocks, TakesTurn, hold_for};
ghost use Rattle.held_queue.specs.Frees.{freed_by, frees};
ghost use Rattle.held_queue.specs.declared.hold.Hold.{Hold};
ghost use Rattle.held_queue.specs.declared.hold.Hold.TheVariants.{Main};

/// A call that the table of verdicts holds is blocked by what its cause stands for; and what is blocked, the table
/// holds for every worker, but for the first one what is to be run by it.
pub fn held_is_blocked()
    ensures blocked { (facts : Facts) (worker : ℕ) (cause : Option Cause)
        → first_row facts worker ≡ HeldBy cause
        → Blocks facts (hold_for facts cause) }
    ensures held { (facts : Facts) (worker : ℕ) (hold : Hold) → Blocks facts hold
        → (hold ≡ Main → (worker == 0) ≡ false)
        → chosen (first_row facts worker) ≡ None }
{}

/// Whatever entry follows a legal history, a call that arrived and is blocked is blocked after it by the same, unless
/// the entry frees that. A request that waits for its turn in an adapter waits for it still, unless the entry frees all.
pub fn held_stays_held()
    ensures stays { (c : Config) (run limit : ℕ) (past : List Entry) (e : Entry) → IsGiven c run
        → IsGivenAlone c run
        → IsWithinLimits c limit
        → IsLegal c run limit (e ∷ past) → (r : ℕ) → r < arrivals past → (hold : Hold)
        → frees (freed_by c run past e) hold ≡ false
        → Blocks (facts_of c run past r) hold → Blocks (facts_of c run (e ∷ past) r) hold }
    ensures waits { (c : Config) (run limit : ℕ) (past : List Entry) (e : Entry) → IsGiven c run
        → IsGivenAlone c run
        → IsWithinLimits c limit
        → IsLegal c run limit (e ∷ past) → (r : ℕ) → r < arrivals past → (k : ℕ)
        → (freed_by c run past e).all ≡ false
        → TakesTurn k (facts_of c run past r) → TakesTurn k (facts_of c run (e ∷ past) r) }
{}
