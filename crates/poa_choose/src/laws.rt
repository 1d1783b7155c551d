//! What the table of verdicts says of every call, for those who stand on it without its rows.
ghost use Rattle.std.specs.Prelude.{◌≡◌, ℕ, true, false};
ghost use Rattle.poa_base.specs.declared.ManagerState.TheVariants.{Active};
ghost use Rattle.poa_choose.specs.Laws.{runs, raises};
ghost use Rattle.poa_choose.specs.Table.{first_row};
ghost use Rattle.poa_choose.specs.declared.facts.Facts.{Facts};
ghost use Rattle.poa_choose.specs.declared.facts.WalkFact.TheVariants.{Found};

/// A locate runs no servant and gets no exception, whatever stands.
pub fn locates_run_nothing()
    ensures runs { (facts : Facts) (worker : ℕ) → facts.locate ≡ true → runs (first_row facts worker) ≡ false }
    ensures raises { (facts : Facts) (worker : ℕ) → facts.locate ≡ true → raises (first_row facts worker) ≡ false }
{}

/// A servant runs only in an adapter that the walk found and whose manager is ACTIVE, and for no persistent key of
/// another tag.
pub fn servants_run_where_active()
    ensures active { (facts : Facts) (worker : ℕ) → runs (first_row facts worker) ≡ true → facts.state ≡ Active }
    ensures found { (facts : Facts) (worker : ℕ) → runs (first_row facts worker) ≡ true → facts.walk ≡ Found }
    ensures own_tag { (facts : Facts) (worker : ℕ) → runs (first_row facts worker) ≡ true → facts.other_tag ≡ false }
{}
