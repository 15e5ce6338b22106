//! Numbers in decimal digits.
ghost use Rattle.std.specs.Prelude.{◌≡◌};
ghost use Rattle.std.specs.List.{list_all};
ghost use Rattle.bd_script.specs.Numbers.{is_digit, is_digits, number_of};

/// The number that the text spells in decimal digits, with no zeros before it and no sign, where it is at most `most`.
pub fn number(text: &str, most: u64) -> Option<u64>
    ensures { result ≡ number_of most text.now }
{
    if !is_digits(text.as_bytes()) {
        return None;
    }
    match text.parse::<u64>() {
        Ok(number) => { if number <= most { Some(number) } else { None } }
        Err(_) => None,
    }
}

fn all_digits(bytes: &[u8]) -> bool
    ensures { result ≡ list_all is_digit bytes.now }
{
    bytes.iter().all(|b| *b >= b'0' && *b <= b'9')
}

// Whether these are decimal digits that begin with a 0 only where they are no more.
fn is_digits(bytes: &[u8]) -> bool
    ensures { result ≡ is_digits bytes.now }
{
    !bytes.is_empty() && all_digits(bytes) && (bytes.len() == 1 || bytes[0] != b'0')
}
