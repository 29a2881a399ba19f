//! The search for the shortest decimal, from one that reads back. A decimal is digits * 10 ^ power / 10 ^ 400.
ghost use Rattle.std.specs.Prelude.{◌≡◌, ◌+◌, ◌-◌, ◌*◌, ◌/◌, ◌^◌, ◌<◌, ◌≤◌, true, false, IsTrue, IsFalse};
ghost use Rattle.float_text.specs.Closest.{IsCoarsest, IsClosestAbove, IsClosestBelow};
ghost use Rattle.float_text.specs.Shortest.{IsFinite, reads_as, shortest};
ghost use Rattle.float_text.specs.Search.{IsAlone, IsBestUp, IsBestDown};

use crate::comparison::{LEAST_POWER, compare_twice};
use fast_float::{FastFloat, nearest_bits};
use std::cmp::Ordering;

/// A decimal above this power is greater than any finite float.
pub(crate) const GREATEST_POWER: u64 = 708;

/// Whether the decimal reads back as the float with these bits.
pub(crate) fn reads_back<F: FastFloat>(bits: u64, digits: u64, power: u64) -> bool
    requires finite { IsFinite F.format bits }
    requires power { 58 ≤ power }
    ensures same { result ≡ reads_as F.format bits digits power }
    ensures sizes { IsTrue result → (0 < digits) × (power ≤ 708) }
{
    if digits == 0 {
        return false;
    }
    if power > GREATEST_POWER {
        return false;
    }
    nearest_bits::<F>(digits, power - LEAST_POWER) == bits
}

/// The same decimal with so many zeros less at the end of its digits, where it has them.
#[inline(always)]
fn without<F: FastFloat>(bits: u64, decimal: (u64, u64), zeros: u64, factor: u64) -> (u64, u64)
    requires finite { IsFinite F.format bits }
    requires sizes { (0 < decimal.0) × (58 ≤ decimal.1) × (decimal.1 ≤ 708) }
    requires reads { reads_as F.format bits decimal.0 decimal.1 ≡ true }
    requires factor { (factor ≡ 10 ^ zeros) × (zeros ≤ 8) }
    ensures sizes { (0 < result.0) × (result.0 ≤ decimal.0) × (58 ≤ result.1) × (result.1 ≤ 708) }
    ensures reads { reads_as F.format bits result.0 result.1 ≡ true }
{
    let (digits, power) = decimal;
    if digits % factor == 0 {
        (digits / factor, power + zeros)
    } else {
        (digits, power)
    }
}

/// The same decimal with no zero at the end of its digits, if they are at most 18.
#[inline(always)]
fn without_zeros<F: FastFloat>(bits: u64, digits: u64, power: u64) -> (u64, u64)
    requires finite { IsFinite F.format bits }
    requires sizes { (0 < digits) × (58 ≤ power) × (power ≤ 708) }
    requires reads { reads_as F.format bits digits power ≡ true }
    ensures sizes { (0 < result.0) × (result.0 ≤ digits) × (58 ≤ result.1) × (result.1 ≤ 708) }
    ensures reads { reads_as F.format bits result.0 result.1 ≡ true }
{
    if digits % 10 > 0 {
        return (digits, power);
    }
    let by_eight = without::<F>(bits, (digits, power), 8, 100_000_000);
    let by_eight_more = without::<F>(bits, by_eight, 8, 100_000_000);
    let by_four = without::<F>(bits, by_eight_more, 4, 10_000);
    let by_two = without::<F>(bits, by_four, 2, 100);
    without::<F>(bits, by_two, 1, 10)
}

/// Whether twice the digits are less than the float's hidden bit: floats lie closer to one another then than decimals at this power, so
/// that neither of the two next to it reads back, and so no other one at this power, and none at a greater one.
#[inline(always)]
fn is_alone<F: FastFloat>(bits: u64, digits: u64, power: u64) -> bool
    requires finite { IsFinite F.format bits }
    requires sizes { (0 < digits) × (58 ≤ power) × (power ≤ 708) }
    requires reads { reads_as F.format bits digits power ≡ true }
    ensures { IsTrue result → IsAlone F.format bits digits power }
{
    let hidden = 1 << (F::DIGITS - 1);
    if bits < hidden || bits + 1 >= F::INFINITY_BITS {
        return false;
    }
    if digits >= hidden / 2 || digits % 10 == 0 {
        return false;
    }
    true
}

/// The greatest power at which a decimal reads back, and one that does. Where the two next to the digits don't, no other one does.
fn coarsen<F: FastFloat>(bits: u64, digits: u64, power: u64) -> (u64, u64)
    requires finite { IsFinite F.format bits }
    requires sizes { (0 < digits) × (58 ≤ power) × (power ≤ 708) }
    requires reads { reads_as F.format bits digits power ≡ true }
    ensures sizes { (0 < result.0) × (result.0 ≤ digits) × (58 ≤ result.1) × (result.1 ≤ 708) }
    ensures reads { reads_as F.format bits result.0 result.1 ≡ true }
    ensures below { reads_as F.format bits (result.0 / 10) (result.1 + 1) ≡ false }
    ensures above { reads_as F.format bits (result.0 / 10 + 1) (result.1 + 1) ≡ false }
{
    let (mut best, mut greatest) = (digits, power);
    loop {
        let less = best / 10;
        if reads_back::<F>(bits, less, greatest + 1) {
            best = less;
        } else if reads_back::<F>(bits, less + 1, greatest + 1) {
            best = less + 1;
        } else {
            return (best, greatest);
        }
        greatest += 1;
    }
}

/// Whether the next decimal up reads back and is closer, or as close and even.
fn is_better_above<F: FastFloat>(bits: u64, digits: u64, power: u64) -> bool
    requires finite { IsFinite F.format bits }
    requires sizes { (digits < 2 ^ 62) × (58 ≤ power) × (power ≤ 708) }
    ensures yes { IsTrue result → reads_as F.format bits (digits + 1) power ≡ true }
    ensures no { IsFalse result → IsBestUp F.format bits digits power }
{
    let is_closer = match compare_twice::<F>(bits, 2 * digits + 1, power) {
        Ordering::Less => false,
        Ordering::Equal => digits % 2 == 1,
        Ordering::Greater => true,
    };
    is_closer && reads_back::<F>(bits, digits + 1, power)
}

/// Whether the next decimal down reads back and is closer, or as close and even.
fn is_better_below<F: FastFloat>(bits: u64, digits: u64, power: u64) -> bool
    requires finite { IsFinite F.format bits }
    requires sizes { (0 < digits) × (digits < 2 ^ 62) × (58 ≤ power) × (power ≤ 708) }
    ensures yes { IsTrue result → (1 < digits) × (reads_as F.format bits (digits - 1) power ≡ true) }
    ensures up { IsTrue result → IsBestUp F.format bits (digits - 1) power }
    ensures no { IsFalse result → IsBestDown F.format bits digits power }
{
    let is_closer = match compare_twice::<F>(bits, 2 * digits - 1, power) {
        Ordering::Less => true,
        Ordering::Equal => digits % 2 == 1,
        Ordering::Greater => false,
    };
    is_closer && reads_back::<F>(bits, digits - 1, power)
}

/// The closest decimal at the greatest power. Where that is the given one already, each test runs once and fails.
fn closest_of_coarsest<F: FastFloat>(bits: u64, digits: u64, power: u64) -> (u64, u64)
    requires finite { IsFinite F.format bits }
    requires sizes { (0 < digits) × (digits ≤ 10 ^ 18) × (58 ≤ power) × (power ≤ 708) }
    requires reads { reads_as F.format bits digits power ≡ true }
    ensures same { result ≡ shortest F.format bits }
    ensures reads { reads_as F.format bits result.0 result.1 ≡ true }
    ensures closest_above { IsClosestAbove F.format bits result.0 result.1 }
    ensures closest_below { IsClosestBelow F.format bits result.0 result.1 }
    ensures coarsest { IsCoarsest F.format bits result.1 }
    ensures power { result.1 ≤ 708 }
{
    let (start, greatest) = coarsen::<F>(bits, digits, power);
    let mut best = start;
    while is_better_above::<F>(bits, best, greatest) {
        best += 1;
    }
    while is_better_below::<F>(bits, best, greatest) {
        best -= 1;
    }
    (best, greatest)
}

/// The shortest decimal, from any that reads back.
#[inline(always)]
pub(crate) fn shortest_from<F: FastFloat>(bits: u64, digits: u64, power: u64) -> (u64, u64)
    requires finite { IsFinite F.format bits }
    requires sizes { (0 < digits) × (digits ≤ 10 ^ 18) × (58 ≤ power) × (power ≤ 708) }
    requires reads { reads_as F.format bits digits power ≡ true }
    ensures same { result ≡ shortest F.format bits }
    ensures reads { reads_as F.format bits result.0 result.1 ≡ true }
    ensures closest_above { IsClosestAbove F.format bits result.0 result.1 }
    ensures closest_below { IsClosestBelow F.format bits result.0 result.1 }
    ensures coarsest { IsCoarsest F.format bits result.1 }
    ensures power { result.1 ≤ 708 }
{
    let (whole, least) = without_zeros::<F>(bits, digits, power);
    if is_alone::<F>(bits, whole, least) {
        return (whole, least);
    }
    closest_of_coarsest::<F>(bits, whole, least)
}
