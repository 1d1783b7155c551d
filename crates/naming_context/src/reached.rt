//! What a key leads to.
ghost use Rattle.std.specs.Prelude.{◌≡◌, nat_eq};
ghost use Rattle.std.specs.Cmp.Lexicographic.{pointwise};
ghost use Rattle.naming_context.specs.Keys.{Reaches, context_in as context_of_key, is_of_names as is_of_names_key, number_in as number_of, names_path};

use object_key::{KeyView, PathView, view_key};

/// What a key leads to.
#[derive(Clone, Copy)]
pub enum Reached {
    /// A context, by its number.
    Context(u32),
    /// It is the key of no context.
    NoContext,
    /// The bytes spell no key.
    NoKey,
}

impl Reached {
    /// What these bytes lead to, where so many contexts were made behind context 0.
    pub(crate) fn by(bytes: &[u8], made: u32) -> Reached
        ensures { Reaches made bytes.now result }
    {
        match view_key(bytes) {
            Ok(key) => match context_in(&key, made) {
                Some(number) => Reached::Context(number),
                None => Reached::NoContext,
            },
            Err(_) => Reached::NoKey,
        }
    }
}

// The context of a key.
fn context_in(key: &KeyView<'_>, made: u32) -> Option<u32>
    ensures { result ≡ context_of_key made key.now }
{
    if !is_of_names(key) {
        return None;
    }
    let number = number_in(key.oid())?;
    if number <= made { Some(number) } else { None }
}

// Whether a key is one of the path of contexts.
fn is_of_names(key: &KeyView<'_>) -> bool
    ensures { result ≡ is_of_names_key key.now }
{
    key.stamp().is_none() && key.tag() == 0 && is_names(key.path())
}

// Whether a path is that of contexts.
fn is_names(path: &PathView<'_>) -> bool
    ensures { result ≡ pointwise (pointwise nat_eq) names_path path.now }
{
    let Some((name, rest)) = path.split_first() else {
        return false;
    };
    name == b"names".as_slice() && rest.split_first().is_none()
}

// The number that an object id writes.
fn number_in(oid: &[u8]) -> Option<u32>
    ensures { result ≡ number_of oid.now }
{
    match oid {
        [a, b, c, d] => Some(u32::from_be_bytes([*a, *b, *c, *d])),
        _ => None,
    }
}
