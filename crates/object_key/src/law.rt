//! What holds of all keys.
ghost use Rattle.std.specs.Prelude.{◌≡◌};
ghost use Rattle.poa_base.specs.declared.Key.{Key};
ghost use Rattle.object_key.specs.Spelling.{key_spelling, IsKey};

/// No two keys have one spelling.
pub fn one_spelling()
    ensures { (a b : Key) → IsKey a → IsKey b → key_spelling a ≡ key_spelling b → a ≡ b }
{}
