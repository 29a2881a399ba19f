//! What the bytes of a value mean.
ghost use Rattle.std.specs.Prelude.{◌≡◌, ◌≤◌, option_map, is_some, true, Some};
ghost use Rattle.binlog_table.specs.Extent.{HasExtent, extent_of};
ghost use Rattle.binlog_table.specs.Value.{value_of, view};

use crate::cell::Cell;
use crate::column::{Column, Layout};
use crate::decimal::{decimal_of, known_decimal};
use crate::number::{big, little, little_signed};
use crate::time::{date_of, date_time_of, time_of, timestamp_of};

/// What the whole text of a value means, where it means anything.
#[tactic(auto, unfolding(crate::specs::Value::value_of))]
pub(crate) fn value_of<'a>(column: &Column, text: &'a [u8]) -> Option<Cell<'a>>
    requires { HasExtent (extent_of column.now.layout) text.now }
    ensures { option_map view result ≡ value_of column.now text.now }
{
    match &column.layout {
        Layout::Timestamp(precision) => timestamp_of(*precision, text),
        Layout::DateTime(precision) => date_time_of(*precision, text),
        Layout::Time(precision) => time_of(*precision, text),
        Layout::Decimal(size) => decimal_of(*size, text),
        _ => Some(known_value(column, text)),
    }
}

/// What the whole text of a value means that is known to mean something.
#[inline(always)]
#[tactic(auto, unfolding(crate::specs::Value::value_of))]
pub(crate) fn known_value<'a>(column: &Column, text: &'a [u8]) -> Cell<'a>
    requires extent { HasExtent (extent_of column.now.layout) text.now }
    requires known { is_some (value_of column.now text.now) ≡ true }
    ensures { value_of column.now text.now ≡ Some (view result) }
{
    match &column.layout {
        Layout::Integer(width) => {
            if column.unsigned {
                Cell::UInt(little(text, usize::from(width.bytes)))
            } else {
                Cell::Int(little_signed(text, usize::from(width.bytes)))
            }
        }
        Layout::Year => {
            let byte = u16::from(text[0]);
            Cell::Year(if byte == 0 { 0 } else { 1900 + byte })
        }
        Layout::Date => Cell::Date(date_of(text)),
        Layout::Text(width) => Cell::Bytes(&text[usize::from(width.bytes)..]),
        Layout::Raw(width) => Cell::Raw(&text[usize::from(width.bytes)..]),
        Layout::Float(_) => Cell::Raw(text),
        Layout::Bits(width) => Cell::Bits(big(text, usize::from(width.bytes))),
        Layout::Timestamp(precision) => timestamp_of(*precision, text).unwrap(),
        Layout::DateTime(precision) => date_time_of(*precision, text).unwrap(),
        Layout::Time(precision) => time_of(*precision, text).unwrap(),
        Layout::Decimal(size) => Cell::Decimal(known_decimal(*size, text)),
        Layout::Enum(size) => Cell::Enum(little(text, usize::from(size.bytes)) as u16),
        Layout::Set(width) => Cell::Set(little(text, usize::from(width.bytes))),
    }
}

/// Whether the whole text of a value means anything. Only times and decimals can be out of range.
#[inline(always)]
#[tactic(auto, unfolding(crate::specs::Value::value_of))]
pub(crate) fn has_value(column: &Column, text: &[u8]) -> bool
    requires { HasExtent (extent_of column.now.layout) text.now }
    ensures { result ≡ is_some (value_of column.now text.now) }
{
    match &column.layout {
        Layout::Timestamp(precision) => timestamp_of(*precision, text).is_some(),
        Layout::DateTime(precision) => date_time_of(*precision, text).is_some(),
        Layout::Time(precision) => time_of(*precision, text).is_some(),
        Layout::Decimal(size) => decimal_of(*size, text).is_some(),
        _ => true,
    }
}
