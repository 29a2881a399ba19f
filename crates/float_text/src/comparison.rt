//! The comparison of a float with a decimal: by the leading bits of a power of ten, and exactly where these don't decide.
ghost use Rattle.std.specs.Prelude.{◌≡◌, ◌+◌, ◌*◌, ◌^◌, ◌<◌, ◌≤◌, IfSome};
ghost use Rattle.std.specs.Float.Ieee.{ones};
ghost use Rattle.float_text.specs.Search.{IsOrder};
ghost use Rattle.float_text.specs.Shortest.{IsFinite, size_in_units};

use crate::natural::Natural;
use fast_float::{FastFloat, power_of_ten};
use std::cmp::Ordering;

/// What the powers here are greater by.
pub(crate) const POWER_BIAS: u64 = 400;

/// A decimal of at most 19 digits below this power is less than any float but 0.
pub(crate) const LEAST_POWER: u64 = 58;

const LOW_WORD: u128 = 0xffff_ffff_ffff_ffff;

/// The float is significand * 2 ^ exponent times the least float above 0.
#[inline(always)]
pub(crate) fn decode<F: FastFloat>(bits: u64) -> (u64, u64)
    requires finite { IsFinite F.format bits }
    ensures same { result.0 * 2 ^ result.1 ≡ size_in_units F.format bits }
    ensures sizes { (result.0 < 2 ^ 53) × (result.1 + 2 ≤ ones F.format) }
{
    let hidden = 1 << (F::DIGITS - 1);
    if bits < hidden {
        return (bits, 0);
    }
    let field = bits >> (F::DIGITS - 1);
    (hidden + (bits & (hidden - 1)), field - 1)
}

/// Compares twice the float with `halves` times 10 ^ (power - 400).
#[inline(always)]
pub(crate) fn compare_twice<F: FastFloat>(bits: u64, halves: u64, power: u64) -> Ordering
    requires finite { IsFinite F.format bits }
    requires power { (58 ≤ power) × (power ≤ 708) }
    ensures { IsOrder F.format bits halves power result }
{
    match compare_leading::<F>(bits, halves, power) {
        Some(order) => order,
        None => compare_exactly::<F>(bits, halves, power),
    }
}

/// The same, where 128 bits of the power of ten decide it: its product with `halves` is cut off, and less than 2 below the true one.
#[inline(always)]
fn compare_leading<F: FastFloat>(bits: u64, halves: u64, power: u64) -> Option<Ordering>
    requires finite { IsFinite F.format bits }
    requires power { (58 ≤ power) × (power ≤ 708) }
    ensures { IfSome result (IsOrder F.format bits halves power) }
{
    let (significand, exponent) = decode::<F>(bits);
    let index = power - LEAST_POWER;
    let row = power_of_ten(index);
    let decimal = (row >> 64) * halves as u128 + (((row & LOW_WORD) * halves as u128) >> 64);
    // The float in the units of that product.
    let places = exponent + 1203;
    let less = (index * 217_706 + 58_980) / 65_536 + 2 + F::LOWEST;
    if places < less || places > less + 74 {
        return None;
    }
    let float = (significand as u128) << (places - less);
    if float < decimal {
        Some(Ordering::Less)
    } else if float > decimal + 1 {
        Some(Ordering::Greater)
    } else {
        None
    }
}

#[cold]
fn compare_exactly<F: FastFloat>(bits: u64, halves: u64, power: u64) -> Ordering
    requires finite { IsFinite F.format bits }
    requires power { (58 ≤ power) × (power ≤ 708) }
    ensures { IsOrder F.format bits halves power result }
{
    let (significand, exponent) = decode::<F>(bits);
    let mut float = Natural::new(2 * significand);
    float.times_power(10, 19, POWER_BIAS.saturating_sub(power));
    float.times_power(2, 63, exponent.saturating_sub(F::LOWEST));
    let mut decimal = Natural::new(halves);
    decimal.times_power(10, 19, power.saturating_sub(POWER_BIAS));
    decimal.times_power(2, 63, F::LOWEST.saturating_sub(exponent));
    float.compare(&decimal)
}
