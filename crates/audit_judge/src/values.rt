//! What a word spells.
ghost use Rattle.std.specs.Prelude.{◌≡◌, ◌+◌, ◌*◌, ◌≤◌, IfSome, IsTrue, is_some};
ghost use Rattle.std.specs.Char.{is_ascii_digit};
ghost use Rattle.std.specs.List.{list_all};
ghost use Rattle.std.specs.Str.Parse.{digits_value};
ghost use Rattle.script_mean.specs.Words as spec;
ghost use Rattle.audit_judge.specs.Reading.{is_hex_digit};

use script_text::MOST_DIGITS;

/// A number of plain decimal digits, from 0 to the highest.
pub(crate) fn number_within(high: u64, word: &[u8]) -> Option<u64>
    ensures value { result ≡ spec.number_within 0 high word.now }
    ensures bound { IfSome result (λ number. number ≤ high) }
{
    if !is_plain(word) {
        return None;
    }
    value_within(high, word)
}

fn is_plain(word: &[u8]) -> bool
    ensures { result ≡ spec.is_plain word.now }
{
    match word {
        [] => false,
        [digit] => digit.is_ascii_digit(),
        [first, ..] => *first != b'0' && are_digits(word),
    }
}

fn are_digits(word: &[u8]) -> bool
    ensures { result ≡ list_all is_ascii_digit word.now }
{
    word.iter().all(|byte| byte.is_ascii_digit())
}

fn value_within(high: u64, digits: &[u8]) -> Option<u64>
    requires { IsTrue (list_all is_ascii_digit digits.now) }
    ensures value { result ≡ spec.within 0 high (digits_value 10 digits.now) }
    ensures bound { IfSome result (λ number. number ≤ high) }
{
    let mut value: u64 = 0;
    for byte in digits {
        value = with_digit(high, value, *byte - b'0')?;
    }
    Some(value)
}

fn with_digit(high: u64, value: u64, digit: u8) -> Option<u64>
    ensures { result ≡ spec.within 0 high (value * 10 + digit) }
{
    let value = value.checked_mul(10)?.checked_add(u64::from(digit))?;
    if value > high { None } else { Some(value) }
}

/// Whether a word spells a body, in lower case hexadecimal digits or as `-`.
pub(crate) fn spells_body(word: &[u8]) -> bool
    ensures { result ≡ is_some (spec.body_of word.now) }
{
    if word == b"-".as_slice() {
        return true;
    }
    if word.is_empty() || word.len() > MOST_DIGITS {
        return false;
    }
    spells_bytes(word)
}

fn spells_bytes(word: &[u8]) -> bool
    ensures { result ≡ is_some (spec.hex_bytes word.now) }
{
    word.len() % 2 == 0 && are_hex_digits(word)
}

fn are_hex_digits(word: &[u8]) -> bool
    ensures { result ≡ list_all is_hex_digit word.now }
{
    word.iter().all(|byte| is_hex_digit(*byte))
}

fn is_hex_digit(byte: u8) -> bool
    ensures { result ≡ is_hex_digit byte }
{
    matches!(byte, b'0'..=b'9' | b'a'..=b'f')
}
