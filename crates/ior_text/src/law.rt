//! What holds of all texts.
ghost use Rattle.std.specs.Prelude.{◌≡◌, List, ℕ, Result};
ghost use Rattle.poa_base.specs.declared.Ior.{Ior};
ghost use Rattle.ior_text.specs.declared.fault.IorFault.{IorFault};
ghost use Rattle.ior_text.specs.Text.{TextGives};

/// A text gives one reference, or one fault.
pub fn one_answer()
    ensures { (text : List ℕ) (a b : Result Ior IorFault) → TextGives text a → TextGives text b → a ≡ b }
{}
