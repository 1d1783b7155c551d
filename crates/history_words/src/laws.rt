//! What the entries of a legal history say of what stands after it.
ghost use Rattle.std.specs.Prelude.{◌≡◌, ℕ, true, List, length, Option, Some, is_some, slice_get};
ghost use Rattle.poa_base.specs.declared.Config.{Config};
ghost use Rattle.poa_base.specs.declared.Entry.{Entry};
ghost use Rattle.history_standing.specs.declared.node.Node.{Node};
ghost use Rattle.history_standing.specs.Trees.{In};
ghost use Rattle.poa_history.specs.Alone.{IsGivenAlone};
ghost use Rattle.poa_history.specs.Bounds.{IsWithinLimits};
ghost use Rattle.history_standing.specs.Changes.{standing};
ghost use Rattle.poa_history.specs.Legal.{EachEntry, IsLegal};
ghost use Rattle.history_standing.specs.Opening.{made_id};
ghost use Rattle.poa_history.specs.Sound.{IsGiven};
ghost use Rattle.history_standing.specs.Standings.{is_void};
ghost use Rattle.poa_history.specs.States.{servant_of_activation};
ghost use Rattle.history_standing.specs.Templates.{has_activator};
ghost use Rattle.history_standing.specs.declared.activation.Activation.{Activation};
ghost use Rattle.history_words.specs.Creations.{paths_created, NumbersNext};
ghost use Rattle.history_words.specs.Flags.{was_cleaned, TellsShared, TellsTruly};
ghost use Rattle.history_words.specs.Ordinals.{ids_made, ordinal_of, AnswersNext, AnswersOnce};
ghost use Rattle.history_words.specs.Servants.{servant_given, was_refused};

/// The adapters that were created are those that the entries say: the root, those created at opening, and then one for
/// each `create` that is done and each yes of an adapter activator, which says the next number. Of an adapter that
/// stands, number and path are those of its creation. CORBA 3.3 Part 1, sections 15.3.3 and 15.3.9.
pub fn adapters_are_those_created()
    ensures counted { (c : Config) (run limit : ℕ) (h : List Entry) → IsGiven c run
        → IsGivenAlone c run → IsWithinLimits c limit
        → IsLegal c run limit h → (standing c run h).count ≡ length (paths_created c run h) }
    ensures placed { (c : Config) (run limit : ℕ) (h : List Entry) → IsGiven c run
        → IsGivenAlone c run → IsWithinLimits c limit
        → IsLegal c run limit h → (n : Node) → In n (standing c run h).nodes
        → slice_get (paths_created c run h) n.number ≡ Some n.path }
    ensures numbered { (c : Config) (run limit : ℕ) (h : List Entry) → IsGiven c run
        → IsGivenAlone c run → IsWithinLimits c limit
        → IsLegal c run limit h → EachEntry (NumbersNext c run) h }
{}

/// The servant of an activation is the one that it was given: as a configured object, by the command that began it, or
/// by the servant activator's answer that ended its incarnation. It is void exactly where that answer brought none. So
/// it is still being incarnated where a request began it and no answer came. CORBA 3.3 Part 1, sections 15.3.6 and 15.3.9.
pub fn servants_are_those_given()
    ensures complete { (c : Config) (run limit : ℕ) (h : List Entry) → IsGiven c run
        → IsGivenAlone c run → IsWithinLimits c limit
        → IsLegal c run limit h → (a : Activation) → In a (standing c run h).activations
        → servant_of_activation (Some a) ≡ servant_given c run h a.number }
    ensures void { (c : Config) (run limit : ℕ) (h : List Entry) → IsGiven c run
        → IsGivenAlone c run → IsWithinLimits c limit
        → IsLegal c run limit h → (a : Activation) → In a (standing c run h).activations
        → is_void a ≡ was_refused h a.number }
{}

/// A servant activator is told that a cleanup is in progress exactly where, since the activation's begin and before it
/// was taken out, a command that etherealizes ended it; and that activations remain exactly where, when it was taken
/// out, its servant was in the map of its adapter by another one too. CORBA 3.3 Part 1, section 15.3.6.
pub fn activators_are_told()
    ensures cleanup { (c : Config) (run limit : ℕ) (h : List Entry) → IsGiven c run
        → IsGivenAlone c run → IsWithinLimits c limit
        → IsLegal c run limit h → (a : Activation) → In a (standing c run h).activations
        → has_activator c a.path ≡ true
        → a.cleanup ≡ was_cleaned c run h a }
    ensures remaining { (c : Config) (run limit : ℕ) (h : List Entry) → IsGiven c run
        → IsGivenAlone c run → IsWithinLimits c limit
        → IsLegal c run limit h → (a : Activation) → In a (standing c run h).activations
        → TellsShared c run h a.number a.remaining }
    ensures told { (c : Config) (run limit : ℕ) (h : List Entry) → IsGiven c run
        → IsGivenAlone c run → IsWithinLimits c limit
        → IsLegal c run limit h → EachEntry (TellsTruly c run) h }
{}

/// The ordinals of system-made ids count the ids that were made: one for each configured object without an id of its
/// own, for each `activate`, and for each `reference` that begins an activation. An activation has the id of the
/// ordinal that was next at its begin, and the command is answered by that id. So no two activations have one
/// system-made id, and no two answers to an `activate` give one. CORBA 3.3 Part 1, sections 15.3.8 and 15.3.9.
pub fn made_ids_are_counted()
    ensures made { (c : Config) (run : ℕ) (h : List Entry)
        → (standing c run h).made ≡ ids_made c run h }
    ensures numbered { (c : Config) (run limit : ℕ) (h : List Entry) → IsGiven c run
        → IsWithinLimits c limit → IsLegal c run limit h
        → (a : Activation) → In a (standing c run h).activations → (k : ℕ)
        → ordinal_of c run h a.number ≡ Some k → a.oid ≡ made_id run k }
    ensures answered { (c : Config) (run limit : ℕ) (h : List Entry) → IsGiven c run
        → IsWithinLimits c limit → IsLegal c run limit h
        → EachEntry (AnswersNext c run) h }
    ensures once { (c : Config) (run limit : ℕ) (h : List Entry) → IsGiven c run
        → IsWithinLimits c limit → IsLegal c run limit h
        → (a b : Activation) → In a (standing c run h).activations
        → In b (standing c run h).activations
        → is_some (ordinal_of c run h a.number) ≡ true
        → is_some (ordinal_of c run h b.number) ≡ true → a.oid ≡ b.oid → a ≡ b }
    ensures apart { (c : Config) (run limit : ℕ) (h : List Entry) → IsGiven c run
        → IsWithinLimits c limit → IsLegal c run limit h
        → EachEntry AnswersOnce h }
{}
