//! Dates and times by their bytes.
ghost use Rattle.std.specs.Prelude.{◌≡◌, ◌≤◌, ◌+◌, ◌^◌, length, option_map};
ghost use Rattle.byteorder.specs.Endian.{little_number};
ghost use Rattle.binlog_table.specs.Extent.{fraction_len};
ghost use Rattle.binlog_table.specs.Value.{fraction_of, date_of, timestamp_of, date_time_of, time_of, view, timestamp, date_time, time};

use crate::cell::{Cell, Date, DateTime, Time, Timestamp};
use crate::column::Precision;
use crate::extent::fraction_len;
use crate::number::big;
use byteorder::{BigEndian, ByteOrder, LittleEndian};

/// The fraction's number, where it is in range.
#[tactic(auto, unfolding(crate::specs::Value::fraction_of))]
fn fraction_of(precision: Precision, text: &[u8]) -> Option<u32>
    requires { length text.now ≡ fraction_len precision }
    ensures { result ≡ fraction_of precision text.now }
{
    match fraction_len(precision) {
        0 => Some(0),
        1 => {
            let number = u32::from(text[0]);
            if number < 100 { Some(number) } else { None }
        }
        2 => {
            let number = u32::from(BigEndian::read_u16(text));
            if number < 10_000 { Some(number) } else { None }
        }
        _ => {
            let number = BigEndian::read_u24(text);
            if number < 1_000_000 {
                Some(number)
            } else {
                None
            }
        }
    }
}

pub(crate) fn date_of(text: &[u8]) -> Date
    requires { length text.now ≡ 3 }
    ensures { result ≡ date_of (little_number 3 text.now) }
{
    let number = LittleEndian::read_u24(text);
    Date {
        year: (number / 512) as u16,
        month: (number / 32 % 16) as u8,
        day: (number % 32) as u8,
    }
}

#[tactic(auto, unfolding(crate::specs::Value::timestamp_of))]
pub(crate) fn timestamp_of(precision: Precision, text: &[u8]) -> Option<Cell<'_>>
    requires { length text.now ≡ 4 + fraction_len precision }
    ensures { option_map view result ≡ option_map timestamp (timestamp_of precision text.now) }
{
    let fraction = fraction_of(precision, &text[4..])?;
    Some(Cell::Timestamp(Timestamp {
        seconds: BigEndian::read_u32(text),
        fraction,
        precision: precision.digits,
    }))
}

#[tactic(auto, unfolding(crate::specs::Value::date_time_of))]
pub(crate) fn date_time_of(precision: Precision, text: &[u8]) -> Option<Cell<'_>>
    requires { length text.now ≡ 5 + fraction_len precision }
    ensures { option_map view result ≡ option_map date_time (date_time_of precision text.now) }
{
    let number = BigEndian::read_uint(text, 5);
    if number < 1 << 39 {
        return None;
    }
    let packed = number - (1 << 39);
    let fraction = fraction_of(precision, &text[5..])?;
    let year_and_month = packed >> 22;
    Some(Cell::DateTime(DateTime {
        year: (year_and_month / 13) as u32,
        month: (year_and_month % 13) as u8,
        day: ((packed >> 17) % 32) as u8,
        hour: ((packed >> 12) % 32) as u8,
        minute: ((packed >> 6) % 64) as u8,
        second: (packed % 64) as u8,
        fraction,
        precision: precision.digits,
    }))
}

/// The first number that is no fraction of so many bytes.
fn fraction_limit(len: usize) -> u64
    requires { len ≤ 3 }
    ensures { result ≡ 100 ^ len }
{
    match len {
        0 => 1,
        1 => 100,
        2 => 10_000,
        _ => 1_000_000,
    }
}

#[tactic(auto, unfolding(crate::specs::Value::time_of))]
pub(crate) fn time_of(precision: Precision, text: &[u8]) -> Option<Cell<'_>>
    requires { length text.now ≡ 3 + fraction_len precision }
    ensures { option_map view result ≡ option_map time (time_of precision text.now) }
{
    let len = fraction_len(precision);
    let number = big(text, 3 + len);
    let zero = 1u64 << (23 + 8 * len);
    let negative = number < zero;
    let magnitude = if negative {
        zero - number
    } else {
        number - zero
    };
    let above = magnitude >> (8 * len);
    let fraction = magnitude % (1 << (8 * len));
    let hour = above >> 12;
    if hour >= 1024 || fraction >= fraction_limit(len) {
        return None;
    }
    Some(Cell::Time(Time {
        negative,
        hour: hour as u16,
        minute: (above / 64 % 64) as u8,
        second: (above % 64) as u8,
        fraction: fraction as u32,
        precision: precision.digits,
    }))
}
