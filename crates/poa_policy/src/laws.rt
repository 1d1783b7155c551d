//! What the rules say of one entry.
ghost use Rattle.std.specs.Prelude.{◌≡◌, ℕ, Some, slice_get, length, take};
ghost use Rattle.poa_base.specs.declared.AdapterConf.{AdapterConf};
ghost use Rattle.poa_base.specs.declared.Config.{Config};
ghost use Rattle.poa_base.specs.declared.ObjectConf.{ObjectConf};
ghost use Rattle.poa_policy.specs.Adapters.{IsAdapter};
ghost use Rattle.poa_policy.specs.Objects.{IsObject};
ghost use Rattle.poa_policy.specs.Kept.{KeepsRules};

/// The adapter of an index keeps its rule with the adapters before it.
pub fn adapters_keep_their_rule()
    ensures { (c : Config) (k : ℕ) (a : AdapterConf) → KeepsRules c → slice_get c.adapters k ≡ Some a
        → IsAdapter (length c.managers) (length c.servants) (take k c.adapters) a }
{}

/// The object of an index keeps its rule with all adapters and the objects before it.
pub fn objects_keep_their_rule()
    ensures { (c : Config) (k : ℕ) (o : ObjectConf) → KeepsRules c → slice_get c.objects k ≡ Some o
        → IsObject c.adapters (length c.servants) (take k c.objects) o }
{}
