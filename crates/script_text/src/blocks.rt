//! Bytes that digits spell, many at a time.
ghost use Rattle.std.specs.Prelude.{◌≡◌, ◌+◌, ◌*◌, ◌≤◌, length, map};
ghost use Rattle.script_text.specs.Blocks.{WritesBlock, digit_value};

use std::simd::prelude::*;

/// How many bytes are written at a time.
pub(crate) const BLOCK: usize = 16;

/// The values of digits, or 16 for what is none.
#[inline(always)]
fn digit_values(digits: u8x16) -> u8x16
    ensures { result ≡ map digit_value digits }
{
    let decimal = digits - u8x16::splat(b'0');
    let letter = (digits - u8x16::splat(b'a')).simd_min(u8x16::splat(6)) + u8x16::splat(10);
    decimal.simd_lt(u8x16::splat(10)).select(decimal, letter)
}

/// Writes the 16 bytes that 32 digits spell, and answers whether all are digits.
#[inline(always)]
pub(crate) fn write_block(digits: &[u8], bytes: &mut [u8], at: usize) -> bool
    requires { (2 * at + 32 ≤ length digits.now) × (at + 16 ≤ length bytes.old) }
    ensures { WritesBlock at digits.now bytes.old bytes.new result }
{
    let front = digit_values(u8x16::from_slice(&digits[2 * at..]));
    let back = digit_values(u8x16::from_slice(&digits[2 * at + BLOCK..]));
    let (high, low) = front.deinterleave(back);
    (high * u8x16::splat(16) + low).copy_to_slice(&mut bytes[at..]);
    front.simd_max(back).simd_ge(u8x16::splat(16)).to_bitmask() == 0
}
