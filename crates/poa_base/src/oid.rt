//! An object id: CORBA 3.3 Part 1, chapter 15, ObjectId.
ghost use Rattle.std.specs.Prelude.{◌≡◌, ◌↔◌, IsSome, IfSome};
ghost use Rattle.poa_base.specs.Limits.{IsOid};

use crate::copy::TryClone;
use std::alloc::AllocError;
use std::cmp::Ordering;
use std::marker::Model;

/// At most 256 bytes, which name an object within its adapter.
#[derive(Drop)]
pub struct Oid {
    items: Vec<u8>,
}

impl Model for Oid {
    ghost use Rattle.std.specs.Prelude.{List, ℕ};
    ghost use Rattle.poa_base.specs.Limits.{IsOid};

    ghost Value = { List ℕ };

    ghost view = { λ n. n.items.items };

    ghost invariant = { λ n. IsOid n.items.items };
}

impl Oid {
    /// The id of these bytes; none where they are more than 256. Takes no memory.
    pub fn from_vec(items: Vec<u8>) -> Option<Self>
        ensures exact { IsSome result ↔ IsOid items.items }
        ensures value { IfSome result (λ n. n ≡ items.items) }
    {
        if items.len() > 256 {
            return None;
        }
        Some(Oid { items })
    }

    /// The bytes, given back. Takes no memory.
    pub fn into_vec(self) -> Vec<u8>
        ensures { result.items ≡ self }
    {
        let Oid { items } = self;
        items
    }

    /// The bytes of the id, which are at most 256.
    pub fn as_slice(&self) -> &[u8]
        ensures value { result.now ≡ self.now }
        ensures bounds { IsOid self.now }
    {
        self.items.as_slice()
    }
}

impl Clone for Oid {
    ghost is_clone = { λ x y. y ≡ x };

    fn clone(&self) -> Result<Self, AllocError> {
        let items = self.items.clone()?;
        Ok(Oid { items })
    }
}

impl PartialEq for Oid {
    ghost use Rattle.std.specs.Prelude.{nat_eq};
    ghost use Rattle.std.specs.Cmp.Lexicographic.{pointwise};
    ghost use Rattle.std.specs.Cmp.Rules.{comparing};
    ghost use Rattle.std.proofs.Common.{rules};

    ghost eq = { pointwise nat_eq };

    ghost laws = { Prim.search (comparing, rules) };

    fn eq(&self, other: &Self) -> bool {
        self.items == other.items
    }
}

impl Eq for Oid {
    ghost use Rattle.std.specs.Cmp.Rules.{comparing};
    ghost use Rattle.std.proofs.Common.{rules};

    ghost laws = { Prim.search (comparing, rules) };
}

impl PartialOrd for Oid {
    ghost use Rattle.std.specs.Prelude.{Some};
    ghost use Rattle.std.specs.Ordering.{nat_cmp};
    ghost use Rattle.std.specs.Cmp.Lexicographic.{slice_cmp, texts_po};

    ghost partial_cmp = { λ x y. Some (slice_cmp nat_cmp x y) };

    ghost laws = { texts_po };

    fn partial_cmp(&self, other: &Self) -> Option<Ordering> {
        Some(self.cmp(other))
    }
}

impl Ord for Oid {
    ghost use Rattle.std.specs.Prelude.{refl};
    ghost use Rattle.std.specs.Ordering.{nat_cmp};
    ghost use Rattle.std.specs.Cmp.Lexicographic.{slice_cmp, nat_list_cmp_total, texts_ties};

    ghost cmp = { slice_cmp nat_cmp };

    ghost total = { nat_list_cmp_total };

    ghost matches_partial_cmp = { λ x y. refl };

    ghost matches_eq = { texts_ties };

    fn cmp(&self, other: &Self) -> Ordering {
        self.items.cmp(&other.items)
    }
}

impl TryClone for Oid {
    fn try_clone(&self) -> Result<Self, AllocError> {
        self.clone()
    }
}
