//! What a word spells.
ghost use Rattle.std.specs.Prelude.{◌≡◌, ◌*◌, ◌≤◌, ◌&&◌, ◌++◌, length, take, drop, option_map, IfOk, IfSome};
ghost use Rattle.std.specs.Prelude.{if◌then◌else◌};
ghost use Rattle.std.specs.Prelude.{Some, None};
ghost use Rattle.std.specs.Char.{is_ascii_digit};
ghost use Rattle.std.specs.List.{list_all};
ghost use Rattle.std.specs.Option.{unwrap_or};
ghost use Rattle.std.specs.Str.Parse.{digits_value};
ghost use Rattle.script_mean.specs.Words as spec;
ghost use Rattle.script_text.specs.Reading.{IsAllDigits, IsWholeBody, Spells};

use crate::blocks::{BLOCK, write_block};
use crate::error::LineError;
use script_mean::Bytes;
use std::alloc::{AllocError, Global};

/// The most digits of a body: two for each of 65,507 bytes.
pub const MOST_DIGITS: usize = 131_014;

/// The most digits whose value has 32 bits, whatever they are.
const MOST_PLACES: usize = 9;

/// More than the value of any digit.
const NO_DIGIT: u8 = 16;

/// A number of plain decimal digits, within bounds.
pub fn number_within(low: u32, high: u32, word: &[u8]) -> Option<u32>
    ensures value { result ≡ spec.number_within low high word.now }
    ensures bound { IfSome result (λ number. number ≤ high) }
{
    if !begins_plainly(word) {
        return None;
    }
    value_within(low, high, word)
}

/// Whether a number may begin as the word does: not with a 0, unless the 0 is alone.
fn begins_plainly(word: &[u8]) -> bool
    ensures { spec.is_plain word.now ≡ (result && list_all is_ascii_digit word.now) }
{
    match word {
        [] => false,
        [_] => true,
        [first, ..] => *first != b'0',
    }
}

/// The value of a word that is all digits, within bounds.
fn value_within(low: u32, high: u32, word: &[u8]) -> Option<u32>
    ensures value { result ≡
        (if list_all is_ascii_digit word.now then spec.within low high (digits_value 10 word.now) else None) }
    ensures bound { IfSome result (λ number. number ≤ high) }
{
    let mut value: u64 = 0;
    for byte in word {
        if !byte.is_ascii_digit() {
            return None;
        }
        value = value * 10 + u64::from(*byte - b'0');
        if value > u64::from(high) {
            return None;
        }
    }
    if value < u64::from(low) {
        return None;
    }
    Some(value as u32)
}

/// How many digits a text begins with, counting nine at most, and their value.
#[inline(always)]
pub(crate) fn leading_digits(text: &[u8]) -> (usize, u32)
    ensures { IsAllDigits (take result.0 text.now) result.1 × (result.0 ≤ length text.now) }
{
    let most = text.len().min(MOST_PLACES);
    let mut value: u32 = 0;
    for place in 0..most {
        if !text[place].is_ascii_digit() {
            return (place, value);
        }
        value = value * 10 + u32::from(text[place] - b'0');
    }
    (most, value)
}

/// The number that a word of digits with this value spells, within bounds.
#[inline(always)]
pub(crate) fn valued_within(low: u32, high: u32, word: &[u8], value: u32) -> Option<u32>
    requires { IsAllDigits word.now value }
    ensures { result ≡ spec.number_within low high word.now }
{
    if !begins_plainly(word) {
        return None;
    }
    if low <= value && value <= high {
        Some(value)
    } else {
        None
    }
}

/// The bytes that a word of lower case hexadecimal digits spells.
pub(crate) fn body(alloc: Global, word: &[u8]) -> Result<Bytes, LineError>
    ensures { Spells (spec.body_of word.now) result }
{
    if word == b"-".as_slice() {
        return Ok(Bytes::of(Vec::new(alloc)));
    }
    if word.is_empty() || word.len() > MOST_DIGITS {
        return Err(LineError::Form);
    }
    hex_body(alloc, word)
}

/// The bytes that a text spells, if it is all digits of a body.
pub(crate) fn whole_body(alloc: Global, text: &[u8]) -> Result<Option<Bytes>, AllocError>
    ensures { IfOk result (IsWholeBody text.now) }
{
    if text.len() == 0 || text.len() > MOST_DIGITS || text.len() % 2 != 0 {
        return Ok(None);
    }
    let mut bytes = vec![in alloc; 0; text.len() / 2]?;
    if write_bytes(text, bytes.as_mut_slice()) {
        Ok(Some(Bytes::of(bytes)))
    } else {
        Ok(None)
    }
}

fn hex_body(alloc: Global, word: &[u8]) -> Result<Bytes, LineError>
    ensures { Spells (spec.hex_bytes word.now) result }
{
    if word.len() % 2 != 0 {
        return Err(LineError::Form);
    }
    let mut bytes = vec![in alloc; 0; word.len() / 2]?;
    if !write_bytes(word, bytes.as_mut_slice()) {
        return Err(LineError::Form);
    }
    Ok(Bytes::of(bytes))
}

/// Writes the byte of each two digits, and answers whether all are digits.
fn write_bytes(digits: &[u8], bytes: &mut [u8]) -> bool
    requires { length digits.now ≡ 2 * length bytes.old }
    ensures { spec.hex_bytes digits.now ≡ (if result then Some bytes.new else None) }
{
    let mut done = 0;
    while BLOCK <= bytes.len() - done {
        if !write_block(digits, bytes, done) {
            return false;
        }
        done += BLOCK;
    }
    write_last(digits, bytes, done)
}

/// Writes the bytes after those that are done, and answers whether digits spell all of them.
fn write_last(digits: &[u8], bytes: &mut [u8], done: usize) -> bool
    requires { (length digits.now ≡ 2 * length bytes.old) × (done ≤ length bytes.old) }
    ensures { option_map (λ more. take done bytes.old ++ more) (spec.hex_bytes (drop (2 * done) digits.now))
        ≡ (if result then Some bytes.new else None) }
{
    let mut most: u8 = 0;
    for i in done..bytes.len() {
        let high = digit(digits[2 * i]);
        let low = digit(digits[2 * i + 1]);
        most = most.max(high.max(low));
        bytes[i] = high.wrapping_mul(16).wrapping_add(low);
    }
    most < NO_DIGIT
}

/// The value of a digit, or `NO_DIGIT`, without a branch.
fn digit(byte: u8) -> u8
    ensures { result ≡ unwrap_or (spec.hex_digit byte) NO_DIGIT }
{
    let decimal = byte.wrapping_sub(b'0');
    let letter = byte.wrapping_sub(b'a');
    if decimal < 10 {
        decimal
    } else {
        letter.min(NO_DIGIT - 10) + 10
    }
}
