//! The hex digits at the front of a text, sixteen bytes at once.

ghost use Rattle.std.specs.Prelude.{◌≡◌, ℕ, ◌<◌, ◌≤◌, ◌%◌, length, map, slice_index, take, IfSome};
ghost use Rattle.std.specs.Int.Digits.{number_from_digits};
ghost use Rattle.rmm_spec.specs.Text.{glyph, numeral};

use crate::numeral::digit_of;
use std::simd::prelude::*;

// The digit that each byte shows, and no less than 16 where it shows none.
#[inline(always)]
fn digits_in(bytes: u8x16) -> u8x16
    ensures shown { (i : ℕ) → i < 16 → slice_index result i < 16 → glyph (slice_index result i) ≡ slice_index bytes i }
    ensures all { (i d : ℕ) → i < 16 → d < 16 → glyph d ≡ slice_index bytes i → slice_index result i < 16 }
{
    // From '0' to '9' the difference wraps to 246 and more, and the sum back to 0 and more. Elsewhere they are at least 6 and 16.
    let decimal = (bytes - u8x16::splat(b'9' + 1)).simd_max(u8x16::splat(6)) + u8x16::splat(10);
    // From 'a' to 'f' the difference is at most 5. The sum doesn't wrap.
    let letter = (bytes - u8x16::splat(b'a')).simd_min(u8x16::splat(245)) + u8x16::splat(10);
    decimal.simd_min(letter)
}

// How many digits come before the first lane that is none.
#[inline(always)]
fn count_of(digits: u8x16) -> usize
    ensures within { result ≤ 16 }
    ensures digits { (i : ℕ) → i < result → slice_index digits i < 16 }
    ensures end { result < 16 → 16 ≤ slice_index digits result }
{
    digits
        .simd_lt(u8x16::splat(16))
        .to_bitmask()
        .trailing_ones() as usize
}

// The number that sixteen digits spell, each taken from the lower half of its lane.
#[inline(always)]
fn word_of(digits: u8x16) -> u64
    ensures { result ≡ number_from_digits 16 (map (λ d. d % 16) digits) }
{
    let low = digits & u8x16::splat(15);
    let even: u8x8 = low.swizzle([0, 2, 4, 6, 8, 10, 12, 14]);
    let odd: u8x8 = low.swizzle([1, 3, 5, 7, 9, 11, 13, 15]);
    u64::from_be_bytes((even * u8x8::splat(16) + odd).to_array())
}

// The word that the hex digits at a text's front spell, up to sixteen, and how many they are.
#[inline(always)]
pub(crate) fn hex_front(text: &[u8]) -> Option<(u64, usize)>
    requires long { 16 < length text.now }
    ensures found { IfSome result (λ p. take p.1 text.now ≡ numeral 16 p.0) }
    ensures inside { IfSome result (λ p. p.1 < length text.now) }
{
    let first = digit_of(text[0], 16);
    if first >= 16 {
        return None;
    }
    if first == 0 {
        return Some((0, 1));
    }
    if digit_of(text[1], 16) >= 16 {
        return Some((first, 1));
    }
    let digits = digits_in(u8x16::from_slice(text));
    let count = count_of(digits);
    Some((word_of(digits) >> (64 - 4 * count), count))
}
