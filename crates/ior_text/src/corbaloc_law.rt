//! What holds of all references.
ghost use Rattle.std.specs.Prelude.{◌≡◌, List, ℕ};
ghost use Rattle.poa_base.specs.declared.Ior.{Ior};
ghost use Rattle.ior_text.specs.Reference.{HasText};

/// A reference has one corbaloc text at most.
pub fn one_text()
    ensures { (ior : Ior) (a b : List ℕ) → HasText ior a → HasText ior b → a ≡ b }
{}
