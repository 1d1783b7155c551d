//! Numbers among words.
ghost use Rattle.std.specs.Prelude.{◌≡◌, ◌+◌, ◌*◌, ◌-◌, ◌<◌, ◌≤◌, ◌^◌, IfOk, IfSome, Err, Some, None};
ghost use Rattle.std.specs.Option.{SomeIff};
ghost use Rattle.std.specs.Str.{all_ascii_digits};
ghost use Rattle.command_words.specs.declared.fault.WordsFault.TheVariants.{BadWords};
ghost use Rattle.command_words.specs.Numbers as spec;

use crate::fault::WordsFault;

// The digits that a number has at most, zeros in front included.
const MOST_DIGITS: usize = 10;

// And those of a long one.
const MOST_LONG_DIGITS: usize = 20;

/// The number of one to ten digits within these bounds that a word is.
pub(crate) fn number_in(word: &str, least: u32, most: u32) -> Result<u32, WordsFault>
    ensures ok { IfOk result (λ n. spec.number_in least most word.now ≡ Some n) }
    ensures within { IfOk result (λ n. (least ≤ n) × (n ≤ most)) }
    ensures bad { result ≡ Err BadWords → spec.number_in least most word.now ≡ None }
{
    let digits = word.as_bytes();
    if digits.is_empty() || digits.len() > MOST_DIGITS || !are_digits(digits) {
        return Err(WordsFault::BadWords);
    }
    let n = read(digits).ok_or(WordsFault::BadWords)?;
    if u64::from(least) <= n && n <= u64::from(most) {
        Ok(n as u32)
    } else {
        Err(WordsFault::BadWords)
    }
}

/// The number below 2^64 of one to twenty digits that a word is.
pub(crate) fn long_number(word: &str) -> Result<u64, WordsFault>
    ensures ok { IfOk result (λ n. spec.long_number word.now ≡ Some n) }
    ensures bad { result ≡ Err BadWords → spec.long_number word.now ≡ None }
{
    let digits = word.as_bytes();
    if digits.is_empty() || digits.len() > MOST_LONG_DIGITS || !are_digits(digits) {
        return Err(WordsFault::BadWords);
    }
    read(digits).ok_or(WordsFault::BadWords)
}

fn are_digits(word: &[u8]) -> bool
    ensures { result ≡ all_ascii_digits word.now }
{
    for byte in word {
        if !byte.is_ascii_digit() {
            return false;
        }
    }
    true
}

// The number that digits are, where it is below 2^64.
fn read(digits: &[u8]) -> Option<u64>
    ensures { SomeIff result (spec.read_on 0 digits.now < 2 ^ 64) (spec.read_on 0 digits.now) }
{
    let mut n = 0;
    for digit in digits {
        n = with_digit(n, *digit)?;
    }
    Some(n)
}

// The number with one more digit, where it fits.
fn with_digit(n: u64, digit: u8) -> Option<u64>
    ensures { SomeIff result (n * 10 + (digit - 48) < 2 ^ 64) (n * 10 + (digit - 48)) }
{
    let tenfold = n.checked_mul(10)?;
    tenfold.checked_add(u64::from(digit.saturating_sub(b'0')))
}
