//! Cuts a text at a byte.
ghost use Rattle.std.specs.Prelude.{◌≡◌, ◌≤◌, ◌==◌, ◌∷◌, IfSome, length, take};
ghost use Rattle.std.specs.List.{slice_split};
ghost use Rattle.memchr.specs.Find.{IsFirst, IsFirstByte, Nowhere, Passes, is_byte};
ghost use Rattle.script_text.specs.Parts.{parts_after};

use memchr::memchr;
use std::simd::prelude::*;

/// How many bytes are looked at one by one where a byte stands near.
const NEAR: usize = 6;

/// How many bytes are compared at once where a byte may stand near.
const LANES: usize = 16;

/// The text before the first byte `at`, and what stands after that byte, if there is one.
pub fn cut(at: u8, text: &[u8]) -> (&[u8], Option<&[u8]>)
    ensures { slice_split (λ byte. byte == at) text.now ≡ result.0.now ∷ parts_after at result.1 }
{
    parted(at, text, memchr(at, text))
}

/// The text before the first byte `at`, and what stands after that byte, if there is one; faster than `cut` where such
/// a byte is most often near.
pub(crate) fn cut_near(at: u8, text: &[u8]) -> (&[u8], Option<&[u8]>)
    ensures { slice_split (λ byte. byte == at) text.now ≡ result.0.now ∷ parts_after at result.1 }
{
    parted(at, text, first_near(at, text))
}

/// The text before the first byte `at`, and what stands after that byte, if there is one; faster than `cut` where such
/// a byte is often among the first 16.
#[inline(always)]
pub(crate) fn cut_before(at: u8, text: &[u8]) -> (&[u8], Option<&[u8]>)
    ensures { slice_split (λ byte. byte == at) text.now ≡ result.0.now ∷ parts_after at result.1 }
{
    parted(at, text, first_before(at, text))
}

/// The text before the first such byte, which stands at that place, and what stands after it.
fn parted(_at: u8, text: &[u8], place: Option<usize>) -> (&[u8], Option<&[u8]>)
    requires { IsFirstByte (is_byte _at) text.now place }
    ensures { slice_split (λ byte. byte == _at) text.now ≡ result.0.now ∷ parts_after _at result.1 }
{
    match place {
        Some(end) => (&text[..end], Some(&text[end + 1..])),
        None => (text, None),
    }
}

/// The text before a place, and what stands after it, if the text ends at that place or such a byte stands there. No
/// such byte stands before it.
#[inline(always)]
pub(crate) fn cut_at(at: u8, text: &[u8], place: usize) -> Option<(&[u8], Option<&[u8]>)>
    requires { (place ≤ length text.now) × Nowhere (Passes (is_byte at) text.now) 0 place }
    ensures { IfSome result (λ parts. (parts.0.now ≡ take place text.now)
        × (slice_split (λ byte. byte == at) text.now ≡ parts.0.now ∷ parts_after at parts.1)) }
{
    if place == text.len() {
        return Some((text, None));
    }
    if text[place] == at {
        Some((&text[..place], Some(&text[place + 1..])))
    } else {
        None
    }
}

/// Where the first such byte stands.
fn first_near(at: u8, text: &[u8]) -> Option<usize>
    ensures { IsFirstByte (is_byte at) text.now result }
{
    let near = text.len().min(NEAR);
    for place in 0..near {
        if text[place] == at {
            return Some(place);
        }
    }
    if near < NEAR {
        return None;
    }
    match memchr(at, &text[near..]) {
        Some(end) => Some(near + end),
        None => None,
    }
}

/// Where the first such byte stands, by one comparison if that is among the first 16.
#[inline(always)]
fn first_before(at: u8, text: &[u8]) -> Option<usize>
    ensures { IsFirstByte (is_byte at) text.now result }
{
    if text.len() >= LANES {
        if let Some(place) = first_in_lanes(at, text) {
            return Some(place);
        }
    }
    memchr(at, text)
}

/// Where the first such byte stands among the first 16.
#[inline(always)]
fn first_in_lanes(at: u8, text: &[u8]) -> Option<usize>
    requires { 16 ≤ length text.now }
    ensures { IsFirst (Passes (is_byte at) text.now) 0 16 result }
{
    let equal = u8x16::from_slice(text)
        .simd_eq(u8x16::splat(at))
        .to_bitmask();
    if equal == 0 {
        None
    } else {
        Some(equal.trailing_zeros() as usize)
    }
}
