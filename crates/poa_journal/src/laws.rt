//! What the text of a store keeps of it.
ghost use Rattle.std.specs.Prelude.{◌≡◌, ℕ, List, Ok};
ghost use Rattle.poa_base.specs.Store.{Slots, states, stored};
ghost use Rattle.poa_journal.specs.Journal.{IsStore, store_text};
ghost use Rattle.poa_journal.specs.Whole.{rows_of};

/// Two stores with the same rows store the same at each place. So a store that is read of the text of another stores what
/// that one does: places that are only reserved are all that the text loses.
pub fn a_text_keeps_what_is_stored()
    ensures rows { (a b : Slots) → states a ≡ states b → (path : List (List ℕ)) (oid : List ℕ)
        → stored a path oid ≡ stored b path oid }
    ensures back { (a b : Slots) → IsStore a → rows_of (store_text a) ≡ Ok (states b)
        → (path : List (List ℕ)) (oid : List ℕ) → stored b path oid ≡ stored a path oid }
{}
