//! A key that is seen where it lies.
ghost use Rattle.std.specs.Prelude.{◌≡◌, [], None, IfOk};
ghost use Rattle.poa_base.specs.Limits.{IsOid};
ghost use Rattle.object_key.specs.Lifespan.{stamp_in, tag_in};

use crate::key_lifespan::KeyLifespan;
use crate::path_view::PathView;
use poa_base::{Key, Oid, Stamp, WantMemory};
use std::alloc::Global;
use std::marker::Model;

/// An object key whose path and object id are lent from the bytes that spell it. Contracts see it as the key.
#[derive(Drop)]
pub struct KeyView<'a> {
    lifespan: KeyLifespan,
    path: PathView<'a>,
    oid: &'a [u8],
}

impl<'a> Model for KeyView<'a> {
    ghost use Rattle.poa_base.specs.declared.Key.{Key};
    ghost use Rattle.poa_base.specs.Limits.{IsOid};
    ghost use Rattle.object_key.specs.Lifespan.{stamp_in, tag_in};

    ghost Value = { Key };

    ghost view = { λ k. record { stamp = stamp_in k.lifespan; path = k.path; oid = k.oid.now; tag = tag_in k.lifespan } };

    ghost invariant = { λ k. IsOid k.oid.now };
}

impl<'a> KeyView<'a> {
    // A key of these parts.
    pub(crate) fn new(lifespan: KeyLifespan, path: PathView<'a>, oid: &'a [u8]) -> Self
        requires { IsOid oid.now }
        ensures { result
            ≡ record { stamp = stamp_in lifespan; path = path.entry; oid = oid.now; tag = tag_in lifespan } }
    {
        KeyView {
            lifespan,
            path,
            oid,
        }
    }

    /// A persistent key of the root without a tag, with an empty object id.
    pub fn empty() -> KeyView<'static>
        ensures { result ≡ record { stamp = None; path = []; oid = []; tag = 0 } }
    {
        KeyView {
            lifespan: KeyLifespan::Persistent { tag: 0 },
            path: PathView::root(),
            oid: &[],
        }
    }

    /// The stamp; none where the key is persistent.
    pub fn stamp(&self) -> Option<Stamp>
        ensures { result ≡ self.now.stamp }
    {
        match self.lifespan {
            KeyLifespan::Transient { stamp } => Some(stamp),
            KeyLifespan::Persistent { .. } => None,
        }
    }

    /// The tag; 0 where the key has none.
    pub fn tag(&self) -> u16
        ensures { result ≡ self.now.tag }
    {
        match self.lifespan {
            KeyLifespan::Transient { .. } => 0,
            KeyLifespan::Persistent { tag } => tag,
        }
    }

    /// The path of the adapter.
    pub fn path(&self) -> &PathView<'a>
        ensures { result.now ≡ self.now.path }
    {
        &self.path
    }

    /// The object id, lent from where it lies.
    pub fn oid(&self) -> &'a [u8]
        ensures value { result.now ≡ self.now.oid }
        ensures bound { IsOid self.now.oid }
    {
        self.oid
    }

    /// The key, with a copy of each part.
    pub fn to_key(&self, alloc: Global) -> Result<Key, WantMemory>
        ensures { IfOk result (λ key. key ≡ self.now) }
    {
        let path = self.path.to_path(alloc)?;
        let oid = Oid::from_vec(Vec::from_slice(alloc, self.oid)?).ok_or(WantMemory)?;
        Ok(Key {
            stamp: self.stamp(),
            path,
            oid,
            tag: self.tag(),
        })
    }
}
