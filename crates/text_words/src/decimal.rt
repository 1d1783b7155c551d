ghost use Rattle.std.specs.Prelude.{◌≡◌, ◌+◌, ◌*◌, ◌-◌, ◌<◌, ◌≤◌, ◌^◌, ◌∷◌, decimal, IfOk, IfSome};
ghost use Rattle.std.specs.Option.{SomeIff};
ghost use Rattle.text_words.specs.WordGives.{WordGives};
ghost use Rattle.text_words.specs.Number.{negated, number_of, port_of, signed_of};
ghost use Rattle.text_words.specs.Token.{spell, number as number_token, port as port_token, signed as signed_token};

use crate::fault::WordFault;
use itoa::Buffer;

// The number with one more digit, where it fits.
fn with_digit(n: u64, byte: u8) -> Option<u64>
    ensures { SomeIff result (n * 10 + (byte - 48) < 2 ^ 64) (n * 10 + (byte - 48)) }
{
    let tenfold = n.checked_mul(10)?;
    tenfold.checked_add(u64::from(byte.saturating_sub(b'0')))
}

// The number of at most `most`.
fn number_within(word: &[u8], most: u64) -> Option<u64>
    ensures value { result ≡ number_of (most + 1) word.now }
    ensures text { IfSome result (λ n. word.now ≡ decimal n) }
    ensures bound { IfSome result (λ n. n ≤ most) }
{
    let mut n: u64 = 0;
    for byte in word {
        n = with_digit(n, *byte)?;
    }
    let mut buffer = Buffer::new();
    if n <= most && buffer.format(n).as_bytes() == word {
        Some(n)
    } else {
        None
    }
}

/// The number below 2^64 that `word` writes: decimal digits with no sign and no leading zero.
pub fn number64(word: &[u8]) -> Result<u64, WordFault>
    ensures value { WordGives result (number_of (2 ^ 64) word.now) }
    ensures text { IfOk result (λ n. word.now ≡ spell (number_token (2 ^ 64) n)) }
{
    number_within(word, u64::MAX).ok_or(WordFault::OutOfForm)
}

/// The number below 2^32, written as for `number64`.
pub fn number32(word: &[u8]) -> Result<u32, WordFault>
    ensures value { WordGives result (number_of (2 ^ 32) word.now) }
    ensures text { IfOk result (λ n. word.now ≡ spell (number_token (2 ^ 32) n)) }
{
    let n = number_within(word, u64::from(u32::MAX)).ok_or(WordFault::OutOfForm)?;
    Ok(n as u32)
}

/// The number below 2^16, written as for `number64`.
pub fn number16(word: &[u8]) -> Result<u16, WordFault>
    ensures value { WordGives result (number_of (2 ^ 16) word.now) }
    ensures text { IfOk result (λ n. word.now ≡ spell (number_token (2 ^ 16) n)) }
{
    let n = number_within(word, u64::from(u16::MAX)).ok_or(WordFault::OutOfForm)?;
    Ok(n as u16)
}

/// The number below 256, written as for `number64`.
pub fn number8(word: &[u8]) -> Result<u8, WordFault>
    ensures value { WordGives result (number_of 256 word.now) }
    ensures text { IfOk result (λ n. word.now ≡ spell (number_token 256 n)) }
{
    let n = number_within(word, u64::from(u8::MAX)).ok_or(WordFault::OutOfForm)?;
    Ok(n as u8)
}

/// The port from 1 to 65535 that `word` writes, as for `number64`.
pub fn port(word: &[u8]) -> Result<u16, WordFault>
    ensures value { WordGives result (port_of word.now) }
    ensures text { IfOk result (λ n. word.now ≡ spell (port_token n)) }
{
    let n = number16(word)?;
    if n == 0 {
        Err(WordFault::OutOfForm)
    } else {
        Ok(n)
    }
}

/// The 64-bit number with a sign that `word` writes: digits as for `number64`, behind a `-` where it is below 0.
pub fn signed(word: &[u8]) -> Result<i64, WordFault>
    ensures value { WordGives result (signed_of word.now) }
    ensures text { IfOk result (λ n. word.now ≡ spell (signed_token n)) }
{
    match word {
        [b'-', digits @ ..] => negative(digits),
        [_, ..] => {
            let n = number_within(word, i64::MAX as u64).ok_or(WordFault::OutOfForm)?;
            Ok(n as i64)
        }
        [] => Err(WordFault::OutOfForm),
    }
}

// The number below 0 whose size the digits write.
fn negative(digits: &[u8]) -> Result<i64, WordFault>
    ensures value { WordGives result (negated (number_of (2 ^ 63 + 1) digits.now)) }
    ensures text { IfOk result (λ n. 45 ∷ digits.now ≡ spell (signed_token n)) }
{
    let size = number_within(digits, 1 << 63).ok_or(WordFault::OutOfForm)?;
    if size == 0 {
        return Err(WordFault::OutOfForm);
    }
    let below = (size - 1) as i64;
    Ok(-1 - below)
}
