//! Decimals: groups of digits, the highest first.
ghost use Rattle.std.specs.Prelude.{◌≡◌, ◌≤◌, ◌<◌, ◌^◌, ◌+◌, ◌-◌, ◌*◌, ◌++◌, length, drop, option_map, is_some, true, false, [], Some, None, IfSome};
ghost use Rattle.binlog_table.specs.DecimalReads.{plain_from, left_behind, read_group, read_digits, read_front, read_numbers};
ghost use Rattle.byteorder.specs.Endian.{big_number};
ghost use Rattle.binlog_table.specs.DecimalShown.{decimal_view};
ghost use Rattle.binlog_table.specs.DecimalParts.{front_at, behind_at};
ghost use Rattle.binlog_table.specs.Value.{view, decimal};
ghost use Rattle.binlog_table.specs.Decimal.{plain, group_len, group_at, nines_at, digits_at, digits_of, after_group, after_nines, after_digits, appended, both, decimal_len, decimal_of};

use crate::cell::Cell;
use crate::column::DecimalSize;
use crate::decimal_view::DecimalView;
use crate::digits::Digits;
use crate::number::big;

/// How many bytes a group of digits takes.
#[inline(always)]
fn group_len(digits: usize) -> usize
    requires { digits ≤ 9 }
    ensures value { result ≡ group_len digits }
    ensures bound { result ≤ 4 }
{
    ((digits + 1) / 2).min(4)
}

/// How many bytes a decimal takes.
pub(crate) fn decimal_len(size: DecimalSize) -> usize
    ensures value { result ≡ decimal_len size.precision size.scale }
    ensures some { 1 ≤ result }
    ensures bound { result ≤ 36 }
{
    let scale = usize::from(size.scale);
    let whole = usize::from(size.precision) - scale;
    group_len(whole % 9) + 4 * (whole / 9) + 4 * (scale / 9) + group_len(scale % 9)
}

/// The first number that has more digits.
#[inline(always)]
fn limit(digits: usize) -> u64
    requires { digits ≤ 9 }
    ensures value { result ≡ 10 ^ digits }
    ensures positive { 0 < result }
{
    match digits {
        0 => 1,
        1 => 10,
        2 => 100,
        3 => 1_000,
        4 => 10_000,
        5 => 100_000,
        6 => 1_000_000,
        7 => 10_000_000,
        8 => 100_000_000,
        _ => 1_000_000_000,
    }
}

/// How many numbers so many bytes spell.
#[inline(always)]
fn spelled(width: usize) -> u64
    requires { width ≤ 4 }
    ensures { result ≡ 256 ^ width }
{
    match width {
        0 => 1,
        1 => 0x100,
        2 => 0x1_0000,
        3 => 0x100_0000,
        _ => 0x1_0000_0000,
    }
}

/// The number that so many plain bytes spell at a place of a decimal's text.
#[inline(always)]
fn number_at(text: &[u8], at: usize, width: usize) -> u64
    requires some { 1 ≤ width }
    requires few { width ≤ 4 }
    requires room { at + width ≤ length text.now }
    ensures { result ≡ big_number width (plain_from text.now at) }
{
    let count = spelled(width);
    let stored = big(&text[at..], width);
    let number = if text[0] < 128 {
        count - 1 - stored
    } else {
        stored
    };
    if at == 0 { number - count / 2 } else { number }
}

/// The number of the group at a place of a decimal's text.
#[inline(always)]
#[tactic(auto, unfolding(crate::specs::Decimal::group_at))]
fn group_at(text: &[u8], at: usize, len: usize) -> Option<u64>
    requires few { len ≤ 9 }
    requires place { at ≤ length text.now }
    ensures value { read_group len at text.now result ≡ group_at len (plain_from text.now at) }
    ensures small { IfSome result (λ n. n < 10 ^ len) }
    ensures within { IfSome result (λ _. at + group_len len ≤ length text.now) }
{
    let width = group_len(len);
    if width > text.len() - at {
        return None;
    }
    if width == 0 {
        return Some(0);
    }
    let number = number_at(text, at, width);
    if number < limit(len) {
        Some(number)
    } else {
        None
    }
}

/// The place after a group.
#[inline(always)]
#[tactic(auto, unfolding(crate::specs::Decimal::after_group))]
fn after_group(text: &[u8], at: usize, len: usize) -> Option<usize>
    requires few { len ≤ 9 }
    requires place { at ≤ length text.now }
    ensures value { left_behind text.now result ≡ after_group len (plain_from text.now at) }
    ensures within { IfSome result (λ end. end ≤ length text.now) }
{
    let _number = group_at(text, at, len)?;
    Some(at + group_len(len))
}

/// The place after so many groups of nine.
#[inline(always)]
fn after_nines(text: &[u8], start: usize, count: usize) -> Option<usize>
    requires { start ≤ length text.now }
    ensures value { left_behind text.now result ≡ after_nines count (plain_from text.now start) }
    ensures within { IfSome result (λ end. end ≤ length text.now) }
{
    let mut at = start;
    for _ in 0..count {
        at = after_group(text, at, 9)?;
    }
    Some(at)
}

/// The place after all groups.
#[tactic(auto, unfolding(crate::specs::Decimal::after_digits))]
fn after_digits(size: DecimalSize, text: &[u8]) -> Option<usize>
    ensures { left_behind text.now result ≡ after_digits size.precision size.scale (plain text.now) }
{
    let scale = usize::from(size.scale);
    let whole = usize::from(size.precision) - scale;
    let Some(at) = after_group(text, 0, whole % 9) else {
        return None;
    };
    let Some(at) = after_nines(text, at, whole / 9) else {
        return None;
    };
    let Some(at) = after_nines(text, at, scale / 9) else {
        return None;
    };
    after_group(text, at, scale % 9)
}

/// Whether a text has all digits.
fn has_digits(size: DecimalSize, text: &[u8]) -> bool
    ensures { result ≡ is_some (digits_at size.precision size.scale (plain text.now)) }
{
    after_digits(size, text).is_some()
}

/// The decimal that the bytes spell, where they spell one.
#[inline(always)]
pub(crate) fn decimal_of(size: DecimalSize, text: &[u8]) -> Option<Cell<'_>>
    requires { length text.now ≡ decimal_len size.precision size.scale }
    ensures { option_map view result ≡ option_map decimal (decimal_of size.precision size.scale text.now) }
{
    if has_digits(size, text) {
        Some(Cell::Decimal(DecimalView {
            text,
            precision: size.precision,
            scale: size.scale,
        }))
    } else {
        None
    }
}

/// The decimal of bytes that are known to spell one.
#[tactic(auto, unfolding(crate::specs::Decimal::decimal_of))]
pub(crate) fn known_decimal(size: DecimalSize, text: &[u8]) -> DecimalView<'_>
    requires whole { length text.now ≡ decimal_len size.precision size.scale }
    requires known { is_some (decimal_of size.precision size.scale text.now) ≡ true }
    ensures { decimal_of size.precision size.scale text.now ≡ Some (decimal_view result) }
{
    DecimalView {
        text,
        precision: size.precision,
        scale: size.scale,
    }
}

/// Appends the digits of the group at a place of a decimal's text, and gives the place after it.
#[inline(always)]
fn push_group(digits: &mut Digits, text: &[u8], at: usize, len: usize) -> Option<usize>
    requires few { len ≤ 9 }
    requires room { length digits.old + len ≤ 65 }
    requires place { at ≤ length text.now }
    ensures digits { read_digits digits.new text.now result ≡ appended digits.old (group_at len (plain_from text.now at)) }
    ensures len { IfSome result (λ _. length digits.new ≡ length digits.old + len) }
    ensures within { IfSome result (λ end. end ≤ length text.now) }
{
    let number = group_at(text, at, len)?;
    digits.push_number(len, number);
    Some(at + group_len(len))
}

/// Appends the digits of so many groups of nine, and gives the place after them.
#[inline(always)]
fn push_nines(digits: &mut Digits, text: &[u8], start: usize, count: usize) -> Option<usize>
    requires room { length digits.old + 9 * count ≤ 65 }
    requires place { start ≤ length text.now }
    ensures digits { read_digits digits.new text.now result ≡ appended digits.old (nines_at count (plain_from text.now start)) }
    ensures len { IfSome result (λ _. length digits.new ≡ length digits.old + 9 * count) }
    ensures within { IfSome result (λ end. end ≤ length text.now) }
{
    let mut at = start;
    for _ in 0..count {
        at = push_group(digits, text, at, 9)?;
    }
    Some(at)
}

/// Puts the digits of a decimal's text to where none stand, and tells whether it has all.
#[inline(always)]
#[tactic(auto, unfolding(crate::specs::Decimal::digits_at))]
pub(crate) fn put_digits(size: DecimalSize, text: &[u8], digits: &mut Digits) -> bool
    requires { digits.old ≡ [] }
    ensures digits { result ≡ true → digits_at size.precision size.scale (plain text.now) ≡ Some digits.new }
    ensures none { result ≡ false → digits_at size.precision size.scale (plain text.now) ≡ None }
{
    let scale = usize::from(size.scale);
    let whole = usize::from(size.precision) - scale;
    let Some(at) = push_group(digits, text, 0, whole % 9) else {
        return false;
    };
    let Some(at) = push_nines(digits, text, at, whole / 9) else {
        return false;
    };
    let Some(at) = push_nines(digits, text, at, scale / 9) else {
        return false;
    };
    push_group(digits, text, at, scale % 9).is_some()
}

/// The number of the digits of two groups, of which the last has so many.
#[inline(always)]
fn joined(first: u64, last: u64, len: usize) -> u64
    requires few { len ≤ 9 }
    requires first { first < 10 ^ 9 }
    requires last { last < 10 ^ len }
    ensures { result ≡ first * 10 ^ len + last }
{
    first * limit(len) + last
}

/// The number of so many digits in front of the point, and the place after them.
#[inline(always)]
fn number_in_front(text: &[u8], digits: usize) -> Option<(u64, usize)>
    requires few { digits ≤ 17 }
    ensures value { read_front digits text.now result ≡ front_at digits (plain text.now) }
    ensures small { IfSome result (λ r. r.0 < 10 ^ digits) }
    ensures within { IfSome result (λ r. r.1 ≤ length text.now) }
{
    let len = digits % 9;
    let at = group_len(len);
    let first = group_at(text, 0, len)?;
    if digits < 9 {
        return Some((first, at));
    }
    let last = group_at(text, at, 9)?;
    Some((joined(first, last, 9), at + 4))
}

/// The number of so many digits behind the point, which begin at a place.
#[inline(always)]
fn number_behind(text: &[u8], at: usize, digits: usize) -> Option<u64>
    requires few { digits ≤ 17 }
    requires place { at ≤ length text.now }
    ensures value { option_map (digits_of digits) result ≡ behind_at digits (plain_from text.now at) }
    ensures small { IfSome result (λ n. n < 10 ^ digits) }
{
    let len = digits % 9;
    if digits < 9 {
        return group_at(text, at, len);
    }
    let first = group_at(text, at, 9)?;
    let last = group_at(text, at + 4, len)?;
    Some(joined(first, last, len))
}

/// The numbers in front of the point and behind it of a text of few digits, where it has all of them.
pub(crate) fn numbers_of(size: DecimalSize, text: &[u8]) -> Option<(u64, u64)>
    requires { size.precision ≤ 17 }
    ensures digits { read_numbers size result ≡ digits_at size.precision size.scale (plain text.now) }
    ensures front { IfSome result (λ n. n.0 < 10 ^ (size.precision - size.scale)) }
    ensures behind { IfSome result (λ n. n.1 < 10 ^ size.scale) }
{
    let scale = usize::from(size.scale);
    let (whole, at) = number_in_front(text, usize::from(size.precision) - scale)?;
    let fraction = number_behind(text, at, scale)?;
    Some((whole, fraction))
}
