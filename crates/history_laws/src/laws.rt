//! What holds of every legal history in the long run.
ghost use Rattle.std.specs.Prelude.{◌≡◌, ◌<◌, ◌⊎◌, ◌∷◌, ℕ, true, List, None, Some};
ghost use Rattle.poa_base.specs.declared.Config.{Config};
ghost use Rattle.poa_base.specs.declared.Entry.{Entry};
ghost use Rattle.poa_base.specs.declared.Entry.TheVariants.{Collect};
ghost use Rattle.history_standing.specs.Trees.{In};
ghost use Rattle.poa_base.specs.declared.Kind.{Kind};
ghost use Rattle.poa_base.specs.declared.Verdict.{Verdict};
ghost use Rattle.poa_choose.specs.Laws.{runs};
ghost use Rattle.poa_choose.specs.declared.Choice.TheVariants.{Go};
ghost use Rattle.poa_history.specs.States.{Stored};
ghost use Rattle.history_laws.specs.Keyed.{IsKeyed};
ghost use Rattle.history_laws.specs.OneLine.{BringsFresh, AreIncarnated, IsOneLine, HasLineState, KeepsLineState};
ghost use Rattle.history_standing.specs.declared.activation.Activation.{Activation};
ghost use Rattle.poa_history.specs.Alone.{IsGivenAlone};
ghost use Rattle.poa_history.specs.Bounds.{IsWithinLimits};
ghost use Rattle.history_standing.specs.Arrivals.{arrivals};
ghost use Rattle.history_standing.specs.Changes.{standing};
ghost use Rattle.poa_history.specs.Replies.{decided};
ghost use Rattle.poa_history.specs.Legal.{IsLegal};
ghost use Rattle.poa_history.specs.Sound.{IsGiven};
ghost use Rattle.history_standing.specs.Stages.{admitted, stage};
ghost use Rattle.poa_history.specs.Turns.{turn};
ghost use Rattle.history_standing.specs.declared.stage.Stage.TheVariants.{Free};
ghost use Rattle.history_laws.specs.Undone.{AreIdle, IsInHand, IsHeldBack, IsAllDone, IsAllOver, was_shut, was_told};

/// Nothing stays undone. What was begun is in the hands of exactly one of the sixteen workers: each request in
/// flight and each trial, each incarnation, and each etherealization. So where none of them has a next entry,
/// nothing is in flight, every activation that is ending is finished, every adapter that was destroyed is gone,
/// and each arrival that is unadmitted is held back by a manager in the state HOLDING.
pub fn nothing_stays_undone()
    ensures in_hand { (c : Config) (run limit : ℕ) (h : List Entry) → IsGiven c run
        → IsGivenAlone c run → IsWithinLimits c limit
        → IsLegal c run limit h → IsInHand c run h }
    ensures done { (c : Config) (run limit : ℕ) (h : List Entry) → IsGiven c run
        → IsGivenAlone c run → IsWithinLimits c limit
        → IsLegal c run limit h → AreIdle c run h → IsAllDone c run h }
{}

/// Every call is answered. Where no worker has a next entry, each call that arrived is decided, a command that waits
/// too, or a manager in the state HOLDING holds it back. Where moreover a `shutdown` was done, every activation is
/// void or finished, and every call is decided.
pub fn calls_are_answered()
    ensures answered { (c : Config) (run limit : ℕ) (h : List Entry) → IsGiven c run
        → IsGivenAlone c run → IsWithinLimits c limit
        → IsLegal c run limit h → AreIdle c run h → (r : ℕ) → r < arrivals h
        → (decided c run h r ≡ true) ⊎ IsHeldBack c run h r }
    ensures shut { (c : Config) (run limit : ℕ) (h : List Entry) → IsGiven c run
        → IsGivenAlone c run → IsWithinLimits c limit
        → IsLegal c run limit h → AreIdle c run h → was_shut h ≡ true → IsAllOver c run h }
{}

/// The first worker tells for all: where it has no next entry, and no worker has begun anything, none of the sixteen
/// has a next entry. Another worker is held from more, since MAIN_THREAD_MODEL makes it wait for the first.
pub fn first_worker_tells()
    ensures { (c : Config) (run : ℕ) (h : List Entry) → turn c run h 0 ≡ None
        → ((w : ℕ) → stage h w ≡ Free) → AreIdle c run h }
{}

/// That a reply is given to its connection changes no worker's next entry. So a run that was idle stays so while
/// its replies are collected.
pub fn collecting_changes_no_turn()
    ensures { (c : Config) (run limit : ℕ) (h : List Entry) → IsGiven c run → IsGivenAlone c run
        → IsWithinLimits c limit
        → IsLegal c run limit h → (conn a w : ℕ)
        → turn c run (Collect conn a ∷ h) w ≡ turn c run h w }
{}

/// An activation is etherealized exactly where a worker that had it in hand said so.
pub fn etherealized_are_told()
    ensures { (c : Config) (run limit : ℕ) (h : List Entry) → IsGiven c run → IsGivenAlone c run
        → IsWithinLimits c limit
        → IsLegal c run limit h → (a : Activation) → In a (standing c run h).activations
        → a.etherealized ≡ was_told h a.number }
{}

/// A request that goes to a servant reaches the object of its key: the activation that its verdict names stands, with the
/// path and the id of the key; and to another servant it goes only where the adapter has no servant activator. CORBA 3.3
/// Part 1, section 15.2.6.
pub fn requests_reach_their_key()
    ensures { (c : Config) (run limit : ℕ) (h : List Entry) → IsGiven c run → IsGivenAlone c run
        → IsWithinLimits c limit
        → IsLegal c run limit h → (r : ℕ) (v : Verdict) → admitted h r ≡ Some v → runs (Go v) ≡ true
        → IsKeyed c run h r v }
{}

/// The updates of an object are one line. Let a path have a servant activator whose first matching rule brings an id
/// fresh servants of a kind, let each activation of the id be begun by a request that had it incarnated, and none
/// be ended first by a destroy that etherealizes nothing. Then its requests are answered as by one servant that is
/// never taken down, with any number of deactivations, destructions and re-creations between them; the servant that
/// it has is in that one servant's state; and where one was etherealized and each activation of the id is over, that
/// state is what is stored. CORBA 3.3 Part 1, section 15.3.6.
pub fn servants_are_one_line()
    ensures line { (c : Config) (run limit : ℕ) (h : List Entry) → IsGiven c run
        → IsGivenAlone c run → IsWithinLimits c limit
        → IsLegal c run limit h → (opened : Stored) (kind : Kind) (p : List (List ℕ)) (oid : List ℕ)
        → BringsFresh c p oid kind
        → AreIncarnated c run h p oid → IsOneLine c run opened kind h p oid }
    ensures state { (c : Config) (run limit : ℕ) (h : List Entry) → IsGiven c run
        → IsGivenAlone c run → IsWithinLimits c limit
        → IsLegal c run limit h → (opened : Stored) (kind : Kind) (p : List (List ℕ)) (oid : List ℕ)
        → BringsFresh c p oid kind
        → AreIncarnated c run h p oid → HasLineState c run opened kind h p oid }
    ensures kept { (c : Config) (run limit : ℕ) (h : List Entry) → IsGiven c run
        → IsGivenAlone c run → IsWithinLimits c limit
        → IsLegal c run limit h → (opened : Stored) (kind : Kind) (p : List (List ℕ)) (oid : List ℕ)
        → BringsFresh c p oid kind
        → AreIncarnated c run h p oid → KeepsLineState c run opened kind h p oid }
{}
