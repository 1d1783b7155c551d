ghost use Rattle.std.specs.Prelude.{◌≡◌, ◌∷◌, ◌++◌, [], OnOk, OnErr, length, take, ◌^◌};
ghost use Rattle.text_words.specs.Token.{Token, tails};

use crate::adapter_path::path_text;
use itoa::Buffer;
use poa_base::{Oid, Path};
use std::alloc::AllocError;

// Adds a space and two pieces, with nothing taken back where memory ends in between.
fn extend(out: &mut Vec<u8>, front: &[u8], back: &[u8]) -> Result<(), AllocError>
    ensures added { OnOk result (out.new.items ≡ out.old.items ++ 32 ∷ (front.now ++ back.now)) }
    ensures kept { take (length out.old.items) out.new.items ≡ out.old.items }
{
    out.push(b' ')?;
    out.extend_from_slice(front)?;
    out.extend_from_slice(back)
}

// Adds a space and two pieces, or nothing.
fn put_pieces(out: &mut Vec<u8>, front: &[u8], back: &[u8]) -> Result<(), AllocError>
    ensures added { OnOk result (out.new.items ≡ out.old.items ++ 32 ∷ (front.now ++ back.now)) }
    ensures refused { OnErr result (out.new.items ≡ out.old.items) }
{
    let before = out.len();
    let done = extend(out, front, back);
    if done.is_err() {
        out.truncate(before);
    }
    done
}

/// Adds a word, behind a space, as each of these calls does; where memory is wanting, nothing.
pub fn put_word(out: &mut Vec<u8>, word: &[u8]) -> Result<(), AllocError>
    ensures added { OnOk result (out.new.items ≡ out.old.items ++ tails (Token.keyword word.now ∷ [])) }
    ensures refused { OnErr result (out.new.items ≡ out.old.items) }
{
    put_pieces(out, word, b"")
}

/// Adds a number.
pub fn put_number(out: &mut Vec<u8>, n: u64) -> Result<(), AllocError>
    ensures added { OnOk result (out.new.items ≡ out.old.items ++ tails (Token.number (2 ^ 64) n ∷ [])) }
    ensures refused { OnErr result (out.new.items ≡ out.old.items) }
{
    let mut buffer = Buffer::new();
    put_word(out, buffer.format(n).as_bytes())
}

/// Adds a number with a sign.
pub fn put_signed(out: &mut Vec<u8>, n: i64) -> Result<(), AllocError>
    ensures added { OnOk result (out.new.items ≡ out.old.items ++ tails (Token.signed n ∷ [])) }
    ensures refused { OnErr result (out.new.items ≡ out.old.items) }
{
    let mut buffer = Buffer::new();
    put_word(out, buffer.format(n).as_bytes())
}

/// Adds a number in eight hexadecimal digits.
pub fn put_minor(out: &mut Vec<u8>, n: u32) -> Result<(), AllocError>
    ensures added { OnOk result (out.new.items ≡ out.old.items ++ tails (Token.minor n ∷ [])) }
    ensures refused { OnErr result (out.new.items ≡ out.old.items) }
{
    let bytes = n.to_be_bytes();
    let mut digits = [0; 8];
    let _ = hex::encode_to_slice(bytes, &mut digits);
    put_word(out, &digits)
}

/// Adds `prefix`, as `h:`, and the bytes in lower-case hexadecimal.
pub fn put_octets(out: &mut Vec<u8>, prefix: &[u8], bytes: &[u8]) -> Result<(), AllocError>
    ensures added { OnOk result (out.new.items ≡ out.old.items ++ tails (Token.octets prefix.now bytes.now ∷ [])) }
    ensures refused { OnErr result (out.new.items ≡ out.old.items) }
{
    let text = hex::encode(*out.allocator(), bytes)?;
    put_pieces(out, prefix, text.as_bytes())
}

/// Adds an object id.
pub fn put_identity(out: &mut Vec<u8>, id: &Oid) -> Result<(), AllocError>
    ensures added { OnOk result (out.new.items ≡ out.old.items ++ tails (Token.identity id.now ∷ [])) }
    ensures refused { OnErr result (out.new.items ≡ out.old.items) }
{
    put_octets(out, b"h:", id.as_slice())
}

/// Adds a path.
pub fn put_path(out: &mut Vec<u8>, path: &Path) -> Result<(), AllocError>
    ensures added { OnOk result (out.new.items ≡ out.old.items ++ tails (Token.path path.now ∷ [])) }
    ensures refused { OnErr result (out.new.items ≡ out.old.items) }
{
    let text = path_text(*out.allocator(), path)?;
    put_word(out, text.as_slice())
}
