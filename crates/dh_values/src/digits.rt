//! Numbers of few digits.

ghost use Rattle.std.specs.Prelude.{◌≡◌, ◌^◌, ◌<◌, ◌≤◌, true, length, Some, None, MatchResult};
ghost use Rattle.std.specs.Char.{is_ascii_digit};
ghost use Rattle.std.specs.List.{list_all};
ghost use Rattle.dh_values.specs.Numbers.{is_numeral, number, numeral_of, within};

use crate::BadText;

/// Whether each byte is a digit.
pub fn are_digits(bytes: &[u8]) -> bool
    ensures { result ≡ list_all is_ascii_digit bytes.now }
{
    bytes.iter().all(|b| b.is_ascii_digit())
}

/// The number that the digits spell.
pub fn number(bytes: &[u8]) -> u32
    requires few { length bytes.now ≤ 8 }
    requires digits { list_all is_ascii_digit bytes.now ≡ true }
    ensures value { result ≡ number bytes.now }
    ensures bound { result < 10 ^ 8 }
{
    let mut n = 0u32;
    for b in bytes {
        n = 10 * n + (*b - b'0') as u32;
    }
    n
}

fn is_numeral(bytes: &[u8]) -> bool
    ensures { result ≡ is_numeral bytes.now }
{
    1 <= bytes.len() && (bytes.len() == 1 || bytes[0] != b'0') && are_digits(bytes)
}

/// The number from `low` to `high` that the text spells without a leading zero, but in 0 itself. It takes no
/// memory. `BadText` where the text spells no such number.
pub(crate) fn read_within(low: u32, high: u32, text: &str) -> Result<u32, BadText>
    ensures { MatchResult result (λ n. within low high (numeral_of text.now) ≡ Some n) (λ _. within low high (numeral_of text.now) ≡ None) }
{
    if !is_numeral(text.as_bytes()) {
        return Err(BadText);
    }
    let Ok(n) = text.parse::<u32>() else {
        return Err(BadText);
    };
    if n < low || n > high {
        return Err(BadText);
    }
    Ok(n)
}
