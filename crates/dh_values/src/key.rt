//! The key of a command.

ghost use Rattle.std.specs.Prelude.{◌≡◌, ◌↔◌, true, IsTrue, IsOk, IfOk, Some};
ghost use Rattle.std.specs.List.{list_all};
ghost use Rattle.dh_values.specs.Texts.{is_key_byte, is_key};

use crate::BadText;
use crate::short_bytes::Short;
use std::marker::Model;
use std::{fmt, str};

/// 1 to 40 characters of A-Z, a-z, 0-9 and hyphen. The order is that of the bytes.
#[derive(Clone, Copy, PartialEq, Eq, PartialOrd, Ord)]
pub struct Key {
    bytes: Short<40>,
}

impl Model for Key {
    ghost use Rattle.std.specs.Prelude.{◌≡◌, true, List, ℕ};
    ghost use Rattle.dh_values.specs.Texts.{is_key};

    ghost Value = { List ℕ };

    ghost view = { λ s. s.bytes };

    ghost invariant = { λ s. is_key s.bytes ≡ true };

    ghost inverse = { λ t. record { bytes = t } };
}

fn is_key_byte(b: u8) -> bool
    ensures { result ≡ is_key_byte b }
{
    b.is_ascii_alphanumeric() || b == b'-'
}

fn are_key_bytes(bytes: &[u8]) -> bool
    ensures { result ≡ list_all is_key_byte bytes.now }
{
    bytes.iter().all(|b| is_key_byte(*b))
}

fn is_key(bytes: &[u8]) -> bool
    ensures { result ≡ is_key bytes.now }
{
    1 <= bytes.len() && bytes.len() <= 40 && are_key_bytes(bytes)
}

impl Key {
    /// The key that the text spells. It takes no memory. `BadText` where the text is no key.
    pub fn read(text: &str) -> Result<Key, BadText>
        ensures value { IfOk result (λ key. key ≡ text.now) }
        ensures exact { IsOk result ↔ IsTrue (is_key text.now) }
    {
        let bytes = text.as_bytes();
        if !is_key(bytes) {
            return Err(BadText);
        }
        let bytes = Short::of(bytes);
        Ok(Key { bytes })
    }

    /// The text of the key.
    pub fn as_str(&self) -> &str
        ensures text { result.now ≡ self.now }
        ensures grammar { is_key self.now ≡ true }
    {
        unsafe { str::from_utf8_unchecked(self.bytes.bytes()) }
    }
}

impl fmt::Display for Key {
    ghost output = { λ key. Some key };

    fn fmt<W: fmt::Write>(&self, f: &mut fmt::Formatter<W>) -> fmt::Result {
        f.pad(self.as_str())
    }
}
