//! What holds of every run of an accepted configuration.
ghost use Rattle.std.specs.Prelude.{◌≡◌, ℕ, suc, true, false, ◌<◌, ◌^◌, ◌⊎◌, ◌∷◌, List, Some};
ghost use Rattle.poa_base.specs.declared.Config.{Config};
ghost use Rattle.poa_base.specs.declared.Entry.{Entry};
ghost use Rattle.poa_base.specs.declared.Entry.TheVariants.{Collect};
ghost use Rattle.poa_base.specs.declared.Kind.{Kind};
ghost use Rattle.poa_base.specs.declared.Verdict.{Verdict};
ghost use Rattle.poa_choose.specs.Laws.{runs};
ghost use Rattle.poa_choose.specs.declared.Choice.TheVariants.{Go};
ghost use Rattle.poa_policy.specs.Kept.{KeepsRules};
ghost use Rattle.history_standing.specs.declared.node.Node.{Node};
ghost use Rattle.history_standing.specs.Paths.{is_root};
ghost use Rattle.history_standing.specs.Trees.{In};
ghost use Rattle.poa_history.specs.Alone.{IsGivenAlone, StandsAlone};
ghost use Rattle.history_standing.specs.Arrivals.{arrivals};
ghost use Rattle.history_standing.specs.Changes.{standing};
ghost use Rattle.poa_history.specs.Replies.{decided};
ghost use Rattle.poa_history.specs.Destroyed.{was_destroyed, IsEnded, IsEmptied};
ghost use Rattle.history_standing.specs.Ends.{is_gone};
ghost use Rattle.history_standing.specs.Stages.{admitted};
ghost use Rattle.poa_history.specs.InFlight.{IsManned};
ghost use Rattle.poa_history.specs.Lifetime.{HasLifetime};
ghost use Rattle.poa_history.specs.Sound.{IsGiven, IsSound};
ghost use Rattle.poa_history.specs.States.{Stored};
ghost use Rattle.poa_history.specs.Turns.{turn};
ghost use Rattle.history_laws.specs.Keyed.{IsKeyed};
ghost use Rattle.history_laws.specs.Lasting.{KeepsUpdates, LeavesNothing};
ghost use Rattle.history_laws.specs.Undone.{AreIdle, IsInHand, IsHeldBack, IsAllDone, IsAllOver, was_shut};
ghost use Rattle.history_laws.specs.OneLine.{BringsFresh, AreIncarnated, IsOneLine, HasLineState, KeepsLineState};
ghost use Rattle.poa_history.specs.Runs.{IsRun};

/// What stands at the start is sound: the adapters that are created then make a tree, and the configured
/// objects are activations of adapters that stand, with ids of their own. A policy set with
/// IMPLICIT_ACTIVATION has SYSTEM_ID.
pub fn openings_are_sound()
    ensures { (c : Config) (run : ℕ) → KeepsRules c → run < 2 ^ 32 → IsGiven c run }
{}

/// Of the configured objects of one adapter with UNIQUE_ID no two have one servant, and a name is that of
/// one servant.
pub fn openings_are_alone()
    ensures { (c : Config) (run : ℕ) → KeepsRules c → run < 2 ^ 32 → IsGivenAlone c run }
{}

/// What stands after each entry of a run is sound. Of one path at most one adapter stands, its parent stands
/// with it, and the children of one that is being destroyed are being destroyed. What is in flight is in
/// flight in an adapter that stands; of one child at most one trial is in flight, and then no adapter of the
/// child's path stands. Of one id of one adapter at most one activation isn't over.
pub fn runs_are_sound()
    ensures { (c : Config) (run limit : ℕ) (h : List Entry) → IsRun c run limit h
        → IsSound c run (standing c run h) }
{}

/// Each ordinal of a system-made object id fits 32 bits.
pub fn ordinals_fit()
    ensures { (c : Config) (run limit : ℕ) (h : List Entry) → IsRun c run limit h
        → suc (standing c run h).made < 2 ^ 32 }
{}

/// An adapter that stands is being destroyed exactly where a destroy of it, or of an adapter above it, was
/// done since it was created.
pub fn destroyed_are_dying()
    ensures { (c : Config) (run limit : ℕ) (h : List Entry) → IsRun c run limit h → (n : Node)
        → In n (standing c run h).nodes
        → n.dying ≡ was_destroyed c run h n.number n.path }
{}

/// An adapter that stands is gone exactly where it is being destroyed, nothing is in flight in it, its
/// activations are over and its children are gone. None that stands is gone but the root, which stays; and
/// of one that is gone nothing is left.
pub fn gone_have_ended()
    ensures ends { (c : Config) (run limit : ℕ) (h : List Entry) → IsRun c run limit h → (n : Node)
        → In n (standing c run h).nodes
        → (is_gone c (standing c run h) n.number ≡ true → IsEnded c (standing c run h) n)
        × (IsEnded c (standing c run h) n → is_gone c (standing c run h) n.number ≡ true) }
    ensures stays { (c : Config) (run limit : ℕ) (h : List Entry) → IsRun c run limit h → (n : Node)
        → In n (standing c run h).nodes
        → is_root n.path ≡ false → is_gone c (standing c run h) n.number ≡ false }
    ensures emptied { (c : Config) (run limit : ℕ) (h : List Entry) → IsRun c run limit h → (k : ℕ)
        → is_gone c (standing c run h) k ≡ true
        → IsEmptied c (standing c run h) k }
{}

/// At most one incarnation or etherealization is unfinished in an adapter; under UNIQUE_ID a servant is in
/// the map of an adapter by at most one activation; under SINGLE_THREAD_MODEL at most one request is in
/// flight in an adapter; and a fresh servant is that of its activation.
pub fn one_at_a_time()
    ensures { (c : Config) (run limit : ℕ) (h : List Entry) → IsRun c run limit h
        → StandsAlone c (standing c run h) }
{}

/// What is in flight is what a worker has begun and not ended, once, and with one worker. What is in flight in
/// an activation is so in that activation's adapter, and the activation isn't out. A request runs while its
/// activation has its servant. What is being taken down is out, and wasn't etherealized yet.
pub fn in_flight_has_its_worker()
    ensures { (c : Config) (run limit : ℕ) (h : List Entry) → IsRun c run limit h
        → IsManned c run h }
{}

/// Every run keeps the lifetime of its activations: an activation begins once, when every earlier one of its id
/// is over; requests run in it only between its completion and its removal; it is taken out at most once, with
/// nothing in flight in it, and no later admission names it; it is etherealized at most once, after that, by the
/// worker that took it out. No two configured objects of one adapter have one id. CORBA 3.3 Part 1, sections
/// 15.2.4 and 15.3.6.
pub fn lifetimes_are_kept()
    ensures { (c : Config) (run limit : ℕ) (h : List Entry) → IsRun c run limit h
        → HasLifetime c run h }
{}

/// A request that goes to a servant reaches the object of its key: the activation that its verdict names stands, with the
/// path and the id of the key; and to another servant it goes only where the adapter has no servant activator. CORBA 3.3
/// Part 1, section 15.2.6.
pub fn requests_reach_their_key()
    ensures { (c : Config) (run limit : ℕ) (h : List Entry) → IsRun c run limit h
        → (r : ℕ) (v : Verdict) → admitted h r ≡ Some v
        → runs (Go v) ≡ true → IsKeyed c run h r v }
{}

/// Nothing stays undone. What was begun is in the hands of exactly one of the sixteen workers: each request in
/// flight and each trial, each incarnation, and each etherealization. So where none of them has a next entry,
/// nothing is in flight, every activation that is ending is finished, every adapter that was destroyed is gone,
/// and each arrival that is unadmitted is held back by a manager in the state HOLDING.
pub fn nothing_stays_undone()
    ensures in_hand { (c : Config) (run limit : ℕ) (h : List Entry) → IsRun c run limit h
        → IsInHand c run h }
    ensures done { (c : Config) (run limit : ℕ) (h : List Entry) → IsRun c run limit h
        → AreIdle c run h → IsAllDone c run h }
{}

/// Every call is answered. Where no worker has a next entry, each call that arrived is decided, a command that waits
/// too, or a manager in the state HOLDING holds it back. Where moreover a `shutdown` was done, every activation is
/// void or finished, and every call is decided.
pub fn calls_are_answered()
    ensures answered { (c : Config) (run limit : ℕ) (h : List Entry) → IsRun c run limit h
        → AreIdle c run h → (r : ℕ) → r < arrivals h
        → (decided c run h r ≡ true) ⊎ IsHeldBack c run h r }
    ensures shut { (c : Config) (run limit : ℕ) (h : List Entry) → IsRun c run limit h
        → AreIdle c run h → was_shut h ≡ true
        → IsAllOver c run h }
{}

/// That a reply is given to its connection changes no worker's next entry. So a run that was idle stays so while
/// its replies are collected.
pub fn collecting_changes_no_turn()
    ensures { (c : Config) (run limit : ℕ) (h : List Entry) → IsRun c run limit h → (conn a w : ℕ)
        → turn c run (Collect conn a ∷ h) w ≡ turn c run h w }
{}

/// The updates of an object are one line. Let a path have a servant activator whose first matching rule brings an id
/// fresh servants of a kind, let each activation of the id be begun by a request that had it incarnated, and none
/// be ended first by a destroy that etherealizes nothing. Then its requests are answered as by one servant that is
/// never taken down, with any number of deactivations, destructions and re-creations between them; the servant that
/// it has is in that one servant's state; and where one was etherealized and each activation of the id is over, that
/// state is what is stored. CORBA 3.3 Part 1, section 15.3.6.
pub fn servants_are_one_line()
    ensures line { (c : Config) (run limit : ℕ) (h : List Entry) → IsRun c run limit h
        → (opened : Stored) (kind : Kind) (p : List (List ℕ)) (oid : List ℕ)
        → BringsFresh c p oid kind → AreIncarnated c run h p oid
        → IsOneLine c run opened kind h p oid }
    ensures state { (c : Config) (run limit : ℕ) (h : List Entry) → IsRun c run limit h
        → (opened : Stored) (kind : Kind) (p : List (List ℕ)) (oid : List ℕ)
        → BringsFresh c p oid kind → AreIncarnated c run h p oid
        → HasLineState c run opened kind h p oid }
    ensures kept { (c : Config) (run limit : ℕ) (h : List Entry) → IsRun c run limit h
        → (opened : Stored) (kind : Kind) (p : List (List ℕ)) (oid : List ℕ)
        → BringsFresh c p oid kind → AreIncarnated c run h p oid
        → KeepsLineState c run opened kind h p oid }
{}

/// The long laws together, as the calls of the adapter state them of a run.
pub fn runs_last()
    ensures undone { (c : Config) (run limit : ℕ) (h : List Entry) → IsRun c run limit h
        → LeavesNothing c run h }
    ensures updates { (c : Config) (run limit : ℕ) (h : List Entry) → IsRun c run limit h
        → (opened : Stored)
        → KeepsUpdates c run opened h }
{}
