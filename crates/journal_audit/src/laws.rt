//! What the first entry that isn't legal says of its journal.
ghost use Rattle.std.specs.Prelude.{◌≡◌, ℕ, List, reverse};
ghost use Rattle.poa_base.specs.declared.Config.{Config};
ghost use Rattle.poa_base.specs.declared.Entry.{Entry};
ghost use Rattle.poa_history.specs.Legal.{IsLegal};
ghost use Rattle.journal_audit.specs.FirstBad.{IsFirstBad};
ghost use Rattle.journal_audit.specs.declared.rule.Rule.{Rule as RuleOf};

/// Entries of which one is the first that isn't legal aren't a legal history, whatever follows it.
pub fn one_bad_entry_spoils_all()
    ensures { (c : Config) (run limit : ℕ) (entries : List Entry) (place : ℕ) (rule : RuleOf)
        → IsFirstBad c run limit entries place rule → IsLegal c run limit (reverse entries) → ⊥ }
{}

/// No two entries are the first that isn't legal, and it breaks one rule.
pub fn one_bad_entry_is_the_first()
    ensures { (c : Config) (run limit : ℕ) (entries : List Entry) (place other : ℕ) (rule breaks : RuleOf)
        → IsFirstBad c run limit entries place rule → IsFirstBad c run limit entries other breaks
        → (place ≡ other) × (rule ≡ breaks) }
{}
