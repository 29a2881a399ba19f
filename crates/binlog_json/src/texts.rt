//! Decimals, dates and times as strings of JSON, at the end of a text. None of their characters needs an escape.
ghost use Rattle.std.specs.Prelude.{◌≡◌, ◌==◌, OnOk};
ghost use Rattle.std.specs.List.{list_all};
ghost use Rattle.binlog_table.specs.DecimalParts.{IsSplit};
ghost use Rattle.binlog_table.specs.DecimalShown.{decimal_view};
ghost use Rattle.binlog_json.specs.Texts.{sign_text, padded, decimal_text, day_text, clock_text, date_text, date_time_text, time_text, timestamp_text};
ghost use Rattle.binlog_json.specs.Growth.{Gains, Quotes};
ghost use Rattle.binlog_json.specs.Unescaped.{StandsAsIs};

use crate::append::append_number;
use crate::digits::{pair, push_behind_point, push_fraction, push_padded, push_part, push_scaled};
use crate::lines::Line;
use binlog_table::{Date, DateTime, DecimalView, Time, Timestamp};
use std::alloc::AllocError;

fn push_decimal(text: &mut Line, decimal: DecimalView<'_>) -> Result<(), AllocError>
    ensures text { OnOk result (Gains text.old text.new (decimal_text (decimal_view decimal.entry))) }
    ensures as_is { OnOk result (StandsAsIs (decimal_text (decimal_view decimal.entry))) }
{
    match decimal.split() {
        Some((whole, fraction)) => push_split(text, decimal, whole, fraction),
        None => push_long_decimal(text, decimal),
    }
}

/// A decimal, of which the number in front of the point and the one behind it are given.
fn push_split(
    text: &mut Line,
    decimal: DecimalView<'_>,
    whole: u64,
    fraction: u64,
) -> Result<(), AllocError>
    requires { IsSplit (decimal_view decimal) whole fraction }
    ensures { OnOk result (Gains text.old text.new (decimal_text (decimal_view decimal.entry))) }
{
    push_sign(text, decimal.is_negative() && (whole != 0 || fraction != 0))?;
    append_number(text, whole)?;
    push_behind_point(text, fraction, decimal.scale())
}

/// A decimal of any number of digits.
#[inline(never)]
fn push_long_decimal(text: &mut Line, decimal: DecimalView<'_>) -> Result<(), AllocError>
    ensures text { OnOk result (Gains text.old text.new (decimal_text (decimal_view decimal.entry))) }
    ensures as_is { OnOk result (StandsAsIs (decimal_text (decimal_view decimal.entry))) }
{
    let digits = decimal.digits();
    let digits = digits.as_slice();
    push_sign(text, decimal.is_negative() && !are_zeros(digits))?;
    push_scaled(text, digits, decimal.scale())
}

fn are_zeros(digits: &[u8]) -> bool
    ensures { result ≡ list_all (λ digit. digit == 0) digits.now }
{
    digits.iter().all(|digit| *digit == 0)
}

fn push_sign(text: &mut Line, is_negative: bool) -> Result<(), AllocError>
    ensures { OnOk result (Gains text.old text.new (sign_text is_negative)) }
{
    if is_negative {
        text.push(b'-')?;
    }
    Ok(())
}

/// A day, of which a number may have more digits than its place.
fn push_wide_day(text: &mut Line, year: u32, month: u8, day: u8) -> Result<(), AllocError>
    ensures { OnOk result (Gains text.old text.new (day_text year month day)) }
{
    push_padded(text, year, 4)?;
    push_part(text, b'-', month)?;
    push_part(text, b'-', day)
}

fn push_day(text: &mut Line, year: u32, month: u8, day: u8) -> Result<(), AllocError>
    ensures { OnOk result (Gains text.old text.new (day_text year month day)) }
{
    if year >= 10_000 || month >= 100 || day >= 100 {
        return push_wide_day(text, year, month, day);
    }
    let century = pair((year / 100) as u8);
    let later = pair((year % 100) as u8);
    let month = pair(month);
    let day = pair(day);
    let shown = [
        century.0, century.1, later.0, later.1, b'-', month.0, month.1, b'-', day.0, day.1,
    ];
    text.push_array(&shown)
}

/// A time of day, of which a number may have more digits than its place.
fn push_wide_clock(text: &mut Line, hour: u16, minute: u8, second: u8) -> Result<(), AllocError>
    ensures { OnOk result (Gains text.old text.new (clock_text hour minute second)) }
{
    push_padded(text, u32::from(hour), 2)?;
    push_part(text, b':', minute)?;
    push_part(text, b':', second)
}

fn push_clock(text: &mut Line, hour: u16, minute: u8, second: u8) -> Result<(), AllocError>
    ensures { OnOk result (Gains text.old text.new (clock_text hour minute second)) }
{
    if hour >= 100 || minute >= 100 || second >= 100 {
        return push_wide_clock(text, hour, minute, second);
    }
    let hour = pair(hour as u8);
    let minute = pair(minute);
    let second = pair(second);
    let shown = [
        hour.0, hour.1, b':', minute.0, minute.1, b':', second.0, second.1,
    ];
    text.push_array(&shown)
}

fn push_date_time(text: &mut Line, time: DateTime) -> Result<(), AllocError>
    ensures { OnOk result (Gains text.old text.new (date_time_text time)) }
{
    push_day(text, time.year, time.month, time.day)?;
    text.push(b' ')?;
    push_clock(text, u16::from(time.hour), time.minute, time.second)?;
    push_fraction(text, time.precision, time.fraction)
}

fn push_time(text: &mut Line, time: Time) -> Result<(), AllocError>
    ensures { OnOk result (Gains text.old text.new (time_text time)) }
{
    push_sign(text, time.negative)?;
    push_clock(text, time.hour, time.minute, time.second)?;
    push_fraction(text, time.precision, time.fraction)
}

fn push_timestamp(text: &mut Line, time: Timestamp) -> Result<(), AllocError>
    ensures { OnOk result (Gains text.old text.new (timestamp_text time)) }
{
    append_number(text, u64::from(time.seconds))?;
    push_fraction(text, time.precision, time.fraction)
}

/// A decimal in quotes.
#[inline(never)]
pub(crate) fn append_decimal(out: &mut Line, decimal: DecimalView<'_>) -> Result<(), AllocError>
    ensures { OnOk result (Quotes out.old out.new (decimal_text (decimal_view decimal.entry))) }
{
    out.push(b'"')?;
    push_decimal(out, decimal)?;
    out.push(b'"')
}

/// A year in quotes.
#[inline(never)]
pub(crate) fn append_year(out: &mut Line, year: u16) -> Result<(), AllocError>
    ensures { OnOk result (Quotes out.old out.new (padded 4 year)) }
{
    out.push(b'"')?;
    push_padded(out, u32::from(year), 4)?;
    out.push(b'"')
}

/// A date in quotes.
#[inline(never)]
pub(crate) fn append_date(out: &mut Line, date: Date) -> Result<(), AllocError>
    ensures { OnOk result (Quotes out.old out.new (date_text date)) }
{
    out.push(b'"')?;
    push_day(out, u32::from(date.year), date.month, date.day)?;
    out.push(b'"')
}

/// A day and a time of day in quotes.
#[inline(never)]
pub(crate) fn append_date_time(out: &mut Line, time: DateTime) -> Result<(), AllocError>
    ensures { OnOk result (Quotes out.old out.new (date_time_text time)) }
{
    out.push(b'"')?;
    push_date_time(out, time)?;
    out.push(b'"')
}

/// A time in quotes.
#[inline(never)]
pub(crate) fn append_time(out: &mut Line, time: Time) -> Result<(), AllocError>
    ensures { OnOk result (Quotes out.old out.new (time_text time)) }
{
    out.push(b'"')?;
    push_time(out, time)?;
    out.push(b'"')
}

/// Seconds since 1970 in quotes.
#[inline(never)]
pub(crate) fn append_timestamp(out: &mut Line, time: Timestamp) -> Result<(), AllocError>
    ensures { OnOk result (Quotes out.old out.new (timestamp_text time)) }
{
    out.push(b'"')?;
    push_timestamp(out, time)?;
    out.push(b'"')
}
