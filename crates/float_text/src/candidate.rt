//! A decimal that reads back, for the search to begin with.
ghost use Rattle.std.specs.Prelude.{◌≡◌, ◌↔◌, ◌+◌, ◌*◌, ◌^◌, ◌<◌, ◌≤◌, true, IsTrue};
ghost use Rattle.float_text.specs.Shortest.{IsFinite, reads_as, scaled_num, scaled_den};

use crate::comparison::{LEAST_POWER, compare_twice, decode};
use crate::search::{GREATEST_POWER, reads_back};
use fast_float::{FastFloat, power_of_ten};
use std::cmp::Ordering;

/// Digits above this are no candidate.
const MOST_DIGITS: u64 = 1_000_000_000_000_000_000;

const LOW_WORD: u128 = 0xffff_ffff_ffff_ffff;

/// A decimal that reads back: the likely one, where it is seen to.
#[inline(always)]
pub(crate) fn candidate<F: FastFloat>(bits: u64) -> (u64, u64)
    requires finite { IsFinite F.format bits }
    ensures sizes { (0 < result.0) × (result.0 ≤ 10 ^ 18) × (58 ≤ result.1) × (result.1 ≤ 708) }
    ensures reads { reads_as F.format bits result.0 result.1 ≡ true }
{
    let (digits, power) = likely::<F>(bits);
    if digits <= MOST_DIGITS && power >= LEAST_POWER && reads_back::<F>(bits, digits, power) {
        return (digits, power);
    }
    long_decimal::<F>(bits)
}

/// The decimal that is likely the shortest, by the leading bits of a power of ten. Nothing rests on it: `candidate` looks whether it
/// reads back.
#[inline(always)]
fn likely<F: FastFloat>(bits: u64) -> (u64, u64)
    requires finite { IsFinite F.format bits }
{
    let (significand, exponent) = halved_at_edge::<F>(bits);
    // The gap to the next float is 2 ^ (binary - 1074), and from 10 ^ (power - 400) up to ten times that. Over 2 ^ 20, 315_653 is
    // log10(2), and 80_419_078 is 400 less 1074 * log10(2).
    let binary = (exponent + 1074).wrapping_sub(F::LOWEST) % 2048;
    let power = (binary * 315_653 + 80_419_078) >> 20;
    let index = 741 - power;
    let shift = (binary + (index * 217_706 + 58_980) / 65_536).wrapping_sub(2204) % 8;
    // The float over 10 ^ (power - 399): 58 bits before the point, and 64 behind it.
    let row = power_of_ten(index);
    let float = (significand << shift) as u128;
    let product = (row >> 64) * float + (((row & LOW_WORD) * float) >> 64);
    let whole = (product >> 70) as u64;
    let fraction = ((product >> 6) & LOW_WORD) as u64;
    let half_gap = ((row >> 64) as u64) >> (7 - shift);
    // A whole number within half of the gap has a digit less.
    let is_above = half_gap > u64::MAX - fraction;
    if is_above | (half_gap > fraction) {
        return (whole + is_above as u64, power + 1);
    }
    let tenths = ((fraction as u128 * 10 + (1 << 63)) >> 64) as u64;
    (whole * 10 + tenths, power)
}

/// The float's significand and exponent, by the gap below it: that of a power of two is half of the gap above.
#[inline(always)]
fn halved_at_edge<F: FastFloat>(bits: u64) -> (u64, u64)
    requires finite { IsFinite F.format bits }
    ensures { (result.0 < 2 ^ 54) × (result.1 < 2048) }
{
    let (significand, exponent) = decode::<F>(bits);
    if significand == 1 << (F::DIGITS - 1) && exponent > 0 {
        (2 * significand, exponent - 1)
    } else {
        (significand, exponent)
    }
}

/// A decimal that reads back, found digit by digit: the float's own digits so far, and 1 more in the last place. From 18 digits on
/// it lies within half of the gap to the next float.
#[cold]
fn long_decimal<F: FastFloat>(bits: u64) -> (u64, u64)
    requires finite { IsFinite F.format bits }
    ensures sizes { (0 < result.0) × (result.0 ≤ 10 ^ 18) × (58 ≤ result.1) × (result.1 ≤ 708) }
    ensures reads { reads_as F.format bits result.0 result.1 ≡ true }
{
    let (mut digits, mut power) = (0, GREATEST_POWER + 1);
    while !reads_back::<F>(bits, digits + 1, power) {
        power -= 1;
        digits = with_next_digit::<F>(bits, digits * 10, power);
    }
    (digits + 1, power)
}

/// The float's digits cut off at a power, from those with a 0 in the last place.
fn with_next_digit<F: FastFloat>(bits: u64, digits: u64, power: u64) -> u64
    requires finite { IsFinite F.format bits }
    requires sizes { (digits < 10 ^ 18) × (58 ≤ power) × (power ≤ 708) }
    requires from { digits * scaled_den F.format power ≤ scaled_num F.format bits }
    requires below { scaled_num F.format bits < (digits + 10) * scaled_den F.format power }
    ensures from { result * scaled_den F.format power ≤ scaled_num F.format bits }
    ensures below { scaled_num F.format bits < (result + 1) * scaled_den F.format power }
    ensures size { result < digits + 10 }
{
    let mut next = digits;
    while !is_less::<F>(bits, next + 1, power) {
        next += 1;
    }
    next
}

/// Whether the float is less than the decimal.
fn is_less<F: FastFloat>(bits: u64, digits: u64, power: u64) -> bool
    requires finite { IsFinite F.format bits }
    requires sizes { (digits < 2 ^ 62) × (58 ≤ power) × (power ≤ 708) }
    ensures { IsTrue result ↔ (scaled_num F.format bits < digits * scaled_den F.format power) }
{
    match compare_twice::<F>(bits, 2 * digits, power) {
        Ordering::Less => true,
        Ordering::Equal => false,
        Ordering::Greater => false,
    }
}
