//! What holds of every legal history.
ghost use Rattle.std.specs.Prelude.{◌≡◌, ℕ, suc, true, false, ◌<◌, ◌^◌, List, ◌++◌, Some};
ghost use Rattle.poa_base.specs.declared.Config.{Config};
ghost use Rattle.poa_base.specs.declared.Entry.{Entry};
ghost use Rattle.poa_base.specs.declared.Key.{Key};
ghost use Rattle.history_standing.specs.declared.node.Node.{Node};
ghost use Rattle.history_standing.specs.Trees.{In};
ghost use Rattle.object_key.specs.Spelling.{key_spelling, IsKey};
ghost use Rattle.poa_history.specs.Alone.{IsGivenAlone, StandsAlone};
ghost use Rattle.poa_history.specs.Bounds.{IsWithinLimits, HasFewIds};
ghost use Rattle.history_standing.specs.Changes.{standing};
ghost use Rattle.poa_history.specs.Legal.{IsLegal};
ghost use Rattle.poa_history.specs.Endings.{was_ended, was_quieted};
ghost use Rattle.history_standing.specs.Ends.{is_gone};
ghost use Rattle.history_standing.specs.declared.activation.Activation.{Activation};
ghost use Rattle.history_standing.specs.Standings.{Standing};
ghost use Rattle.history_standing.specs.Paths.{is_root};
ghost use Rattle.poa_history.specs.Destroyed.{was_destroyed, IsEnded, IsEmptied};
ghost use Rattle.poa_history.specs.InFlight.{IsManned};
ghost use Rattle.history_standing.specs.Keys.{key_of};
ghost use Rattle.poa_history.specs.Later.{AllLater};
ghost use Rattle.poa_history.specs.Lifetime.{HasLifetime};
ghost use Rattle.poa_history.specs.Out.{was_taken, has_run_out};
ghost use Rattle.history_standing.specs.Templates.{has_activator};
ghost use Rattle.poa_history.specs.Sound.{IsGiven, IsSound};

/// What stands after a legal history is sound. Of one path at most one adapter stands, its parent stands
/// with it, and the children of one that is being destroyed are being destroyed. What is in flight is in
/// flight in an adapter that stands; of one child at most one trial is in flight, and then no adapter of
/// the child's path stands. Of one id of one adapter at most one activation isn't over.
pub fn what_stands_is_sound()
    ensures { (c : Config) (run limit : ℕ) (h : List Entry) → IsGiven c run → IsWithinLimits c limit
        → IsLegal c run limit h
        → IsSound c run (standing c run h) }
{}

/// What an activation has come to never goes back, whatever follows: its servant, that it is void, ending,
/// quiet, out, etherealized or finished. In a legal history an adapter that is gone stays gone.
pub fn nothing_goes_back()
    ensures activations { (c : Config) (run : ℕ) (past more : List Entry)
        → AllLater c (standing c run past) (standing c run (more ++ past)) }
    ensures gone { (c : Config) (run limit : ℕ) → IsGiven c run → IsWithinLimits c limit
        → (past more : List Entry)
        → IsLegal c run limit (more ++ past) → (k : ℕ) → is_gone c (standing c run past) k ≡ true
        → is_gone c (standing c run (more ++ past)) k ≡ true }
{}

/// Bytes have a key exactly where they are the spelling of one, and then it is that key.
pub fn keys_are_spelled()
    ensures spelled { (bytes : List ℕ) (key : Key) → key_of bytes ≡ Some key
        → IsKey key × (key_spelling key ≡ bytes) }
    ensures found { (key : Key) → IsKey key → key_of (key_spelling key) ≡ Some key }
{}

/// A legal history makes at most one system-made object id for each configured object and each arrival, and
/// has at most one arrival more than its limit. So under the limits of a run each ordinal fits 32 bits.
pub fn ids_are_few()
    ensures few { (c : Config) (run limit : ℕ) (h : List Entry) → IsLegal c run limit h
        → HasFewIds c run limit h }
    ensures fits { (c : Config) (run limit : ℕ) (h : List Entry) → IsWithinLimits c limit
        → IsLegal c run limit h
        → suc (standing c run h).made < 2 ^ 32 }
{}

/// An adapter that stands is being destroyed exactly where a destroy of it, or of an adapter above it, was
/// done since it was created.
pub fn destroyed_are_dying()
    ensures { (c : Config) (run limit : ℕ) (h : List Entry) → IsGiven c run → IsWithinLimits c limit
        → IsLegal c run limit h → (n : Node)
        → In n (standing c run h).nodes → n.dying ≡ was_destroyed c run h n.number n.path }
{}

/// An adapter that stands is gone exactly where it is being destroyed, nothing is in flight in it, its
/// activations are over and its children are gone. After a legal history none that stands is gone but the
/// root, which stays; and of one that is gone nothing is left.
pub fn gone_have_ended()
    ensures ends { (c : Config) (run : ℕ) (s : Standing) → IsSound c run s → (n : Node)
        → In n s.nodes
        → (is_gone c s n.number ≡ true → IsEnded c s n)
        × (IsEnded c s n → is_gone c s n.number ≡ true) }
    ensures stays { (c : Config) (run limit : ℕ) (h : List Entry) → IsGiven c run
        → IsWithinLimits c limit → IsLegal c run limit h
        → (n : Node) → In n (standing c run h).nodes → is_root n.path ≡ false
        → is_gone c (standing c run h) n.number ≡ false }
    ensures emptied { (c : Config) (run limit : ℕ) (h : List Entry) → IsGiven c run
        → IsWithinLimits c limit → IsLegal c run limit h
        → (k : ℕ) → is_gone c (standing c run h) k ≡ true → IsEmptied c (standing c run h) k }
{}

/// After a legal history at most one incarnation or etherealization is unfinished in an adapter; under
/// UNIQUE_ID a servant is in the map of an adapter by at most one activation; under SINGLE_THREAD_MODEL at
/// most one request is in flight in an adapter; and a fresh servant is that of its activation.
pub fn one_at_a_time()
    ensures { (c : Config) (run limit : ℕ) (h : List Entry) → IsGiven c run → IsGivenAlone c run
        → IsWithinLimits c limit
        → IsLegal c run limit h → StandsAlone c (standing c run h) }
{}

/// What is in flight is what a worker has begun and not ended, once, and with one worker. What is in flight in
/// an activation is so in that activation's adapter, and the activation isn't out. A request runs while its
/// activation has its servant. What is being taken down is out, and wasn't etherealized yet.
pub fn in_flight_has_its_worker()
    ensures { (c : Config) (run limit : ℕ) (h : List Entry) → IsGiven c run → IsGivenAlone c run
        → IsWithinLimits c limit
        → IsLegal c run limit h → IsManned c run h }
{}

/// Every legal history keeps the lifetime of its activations: an activation begins once, when every earlier one
/// of its id is over; requests run in it only between its completion and its removal; it is taken out at most
/// once, with nothing in flight in it, and no later admission names it; it is etherealized at most once, after
/// that, by the worker that took it out. No two configured objects of one adapter have one id. CORBA 3.3 Part 1,
/// sections 15.2.4 and 15.3.6.
pub fn lifetimes_are_kept()
    ensures { (c : Config) (run limit : ℕ) (h : List Entry) → IsGiven c run → IsGivenAlone c run
        → IsWithinLimits c limit
        → IsLegal c run limit h → HasLifetime c run h }
{}

/// An activation is ending exactly where, since its begin, a command ended it: one that deactivates its id, that
/// destroys its adapter or one above it, or that deactivates its manager so that a servant activator etherealizes.
/// It is quiet exactly where the first of these was a destroy that etherealizes nothing.
pub fn ended_are_ending()
    ensures ending { (c : Config) (run limit : ℕ) → IsGiven c run → IsWithinLimits c limit
        → (h : List Entry) → IsLegal c run limit h
        → (a : Activation) → In a (standing c run h).activations → a.ending ≡ was_ended c run h a }
    ensures quiet { (c : Config) (run limit : ℕ) → IsGiven c run → IsWithinLimits c limit
        → (h : List Entry) → IsLegal c run limit h
        → (a : Activation) → In a (standing c run h).activations → a.quiet ≡ was_quieted c run h a }
{}

/// Where its adapter has a servant activator, an activation is out exactly where an entry took it out. Where
/// it has none, it is out exactly where it has a servant, is ending, and nothing is in flight in it.
pub fn out_when_removed()
    ensures taken { (c : Config) (run limit : ℕ) → IsGiven c run → IsGivenAlone c run
        → IsWithinLimits c limit → (h : List Entry)
        → IsLegal c run limit h → (a : Activation) → In a (standing c run h).activations
        → has_activator c a.path ≡ true
        → a.out ≡ was_taken h a.number }
    ensures left { (c : Config) (run limit : ℕ) → IsGiven c run → IsGivenAlone c run
        → IsWithinLimits c limit → (h : List Entry)
        → IsLegal c run limit h → (a : Activation) → In a (standing c run h).activations
        → has_activator c a.path ≡ false
        → a.out ≡ has_run_out (standing c run h) a }
{}
