//! Ports in a text.
ghost use Rattle.std.specs.Prelude.{◌≡◌, ◌+◌, ◌*◌, ◌-◌, ◌^◌, ◌<◌};
ghost use Rattle.std.specs.List.{list_all};
ghost use Rattle.std.specs.Char.{is_ascii_digit};
ghost use Rattle.std.specs.Option.{SomeIff};
ghost use Rattle.ior_text.specs.Endpoint.{port_of, read_on};

/// The port, from 1 to 65535, that at most five digits write.
pub(crate) fn port(word: &[u8]) -> Option<u16>
    ensures { result ≡ port_of word.now }
{
    if word.len() > 5 || !has_digits(word) {
        return None;
    }
    let port = number(word)?;
    if port == 0 { None } else { Some(port) }
}

fn has_digits(word: &[u8]) -> bool
    ensures { result ≡ list_all is_ascii_digit word.now }
{
    word.iter().all(|c| c.is_ascii_digit())
}

// The number below 2^16 that digits write.
fn number(word: &[u8]) -> Option<u16>
    ensures { SomeIff result (read_on 0 word.now < 2 ^ 16) (read_on 0 word.now) }
{
    let mut n: u16 = 0;
    for byte in word {
        n = with_digit(n, *byte)?;
    }
    Some(n)
}

// The number with one more digit, where it fits.
fn with_digit(n: u16, byte: u8) -> Option<u16>
    ensures { SomeIff result (n * 10 + (byte - 48) < 2 ^ 16) (n * 10 + (byte - 48)) }
{
    let tenfold = n.checked_mul(10)?;
    tenfold.checked_add(u16::from(byte.saturating_sub(b'0')))
}
