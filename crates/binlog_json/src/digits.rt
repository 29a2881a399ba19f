//! Numbers and their digits, at the end of a text.
ghost use Rattle.std.specs.Prelude.{◌≡◌, ◌+◌, ◌<◌, ◌≤◌, [], ◌∷◌, ◌-◌, ◌/◌, ◌%◌, ◌^◌, ◌*◌, length, take, replicate, OnOk, All};
ghost use Rattle.binlog_table.specs.Decimal.{digits_of};
ghost use Rattle.binlog_json.specs.Texts.{padded, digits_text, whole_text, point_text, fraction_text, fraction_digits, with_point};
ghost use Rattle.binlog_json.specs.Growth.{Gains};

use crate::lines::Line;
use crate::pieces::count_digits;
use std::alloc::AllocError;

/// The two digits of each number below 100.
static PAIRS: [u8; 200] =
    *b"00010203040506070809101112131415161718192021222324252627282930313233343536373839404142434445464748495051525354555657585960616263646566676869707172737475767778798081828384858687888990919293949596979899";

/// The two digits of a number below 100.
#[inline(always)]
pub(crate) fn pair(number: u8) -> (u8, u8)
    requires { number < 100 }
    ensures tens { result.0 ≡ 48 + number / 10 }
    ensures ones { result.1 ≡ 48 + number % 10 }
{
    let at = usize::from(number) * 2;
    (PAIRS[at], PAIRS[at + 1])
}

/// The number with zeros in front of it, up to the width.
pub(crate) fn push_padded(text: &mut Line, number: u32, width: usize) -> Result<(), AllocError>
    ensures { OnOk result (Gains text.old text.new (padded width number)) }
{
    let number = u64::from(number);
    push_zeros(text, width.saturating_sub(count_digits(number)))?;
    text.push_number(number)
}

/// A mark, and a number in two digits behind it, or in more where it has more.
pub(crate) fn push_part(text: &mut Line, mark: u8, number: u8) -> Result<(), AllocError>
    requires { mark < 128 }
    ensures { OnOk result (Gains text.old text.new (mark ∷ padded 2 number)) }
{
    text.push(mark)?;
    push_padded(text, u32::from(number), 2)
}

fn push_zeros(text: &mut Line, count: usize) -> Result<(), AllocError>
    ensures { OnOk result (Gains text.old text.new (replicate count 48)) }
{
    for _place in 0..count {
        text.push(b'0')?;
    }
    Ok(())
}

/// Digits as characters, of which those behind them are zeros; no more digits than a decimal has.
#[inline(always)]
fn shown_digits(digits: &[u8]) -> [u8; 65]
    requires digits { All (λ d. d < 10) digits.now }
    requires few { length digits.now ≤ 65 }
    ensures { take (length digits.now) result ≡ digits_text digits.now }
{
    let mut shown = [b'0'; 65];
    for (place, digit) in digits.iter().enumerate() {
        shown[place] = b'0' + *digit;
    }
    shown
}

/// Digits with a point in front of the last `scale` of them, no more than a decimal has.
pub(crate) fn push_scaled(text: &mut Line, digits: &[u8], scale: usize) -> Result<(), AllocError>
    requires digits { All (λ d. d < 10) digits.now }
    requires few { length digits.now ≤ 65 }
    requires scale { scale ≤ length digits.now }
    ensures { OnOk result (Gains text.old text.new (with_point digits.now scale)) }
{
    let shown = shown_digits(digits);
    let (whole, fraction) = digits.split_at(digits.len() - scale);
    let (shown_whole, shown_fraction) = shown[..digits.len()].split_at(digits.len() - scale);
    push_whole(text, whole, shown_whole)?;
    push_point(text, fraction, shown_fraction)
}

/// The digits in front of a point, which are given as characters too.
fn push_whole(text: &mut Line, digits: &[u8], shown: &[u8]) -> Result<(), AllocError>
    requires digits { All (λ d. d < 10) digits.now }
    requires shown { shown.now ≡ digits_text digits.now }
    ensures { OnOk result (Gains text.old text.new (whole_text digits.now)) }
{
    let mut at = 0;
    while at < digits.len() && digits[at] == 0 {
        at += 1;
    }
    if at == digits.len() {
        return text.push(b'0');
    }
    text.push_str(unsafe { str::from_utf8_unchecked(&shown[at..]) })
}

/// The digits behind a point, with the point. They are given as characters too.
fn push_point(text: &mut Line, digits: &[u8], shown: &[u8]) -> Result<(), AllocError>
    requires digits { All (λ d. d < 10) digits.now }
    requires shown { shown.now ≡ digits_text digits.now }
    ensures { OnOk result (Gains text.old text.new (point_text digits.now)) }
{
    if digits.is_empty() {
        return Ok(());
    }
    text.push(b'.')?;
    text.push_str(unsafe { str::from_utf8_unchecked(shown) })
}

/// The point and so many digits of the number behind it, or nothing where there are none.
pub(crate) fn push_behind_point(
    text: &mut Line,
    fraction: u64,
    scale: usize,
) -> Result<(), AllocError>
    ensures { OnOk result (Gains text.old text.new (point_text (digits_of scale fraction))) }
{
    if scale == 0 {
        return Ok(());
    }
    text.push(b'.')?;
    text.push_digits(fraction, scale)
}

/// What is shown of the stored fraction of a second of a column with a precision. It has an even number of digits, so the last isn't
/// shown where the precision is odd.
fn shown_fraction(precision: u8, fraction: u32) -> u32
    ensures { digits_of precision result ≡ fraction_digits precision fraction }
{
    if precision % 2 == 0 {
        fraction
    } else {
        fraction / 10
    }
}

/// The stored fraction of a second of a column with a precision, with its point.
pub(crate) fn push_fraction(text: &mut Line, precision: u8, fraction: u32) -> Result<(), AllocError>
    ensures { OnOk result (Gains text.old text.new (fraction_text precision fraction)) }
{
    let shown = shown_fraction(precision, fraction);
    push_behind_point(text, u64::from(shown), usize::from(precision))
}
