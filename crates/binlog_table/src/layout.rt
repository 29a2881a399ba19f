//! The layout of a column, by its type and metadata.
ghost use Rattle.std.specs.Prelude.{◌≡◌, ◌≤◌, ◌<◌, ◌+◌, IsTrue, IfOk, length};
ghost use Rattle.binlog_table.specs.MapResult.{GivesExactly};
ghost use Rattle.binlog_table.specs.Columns.{plain_layout, has_byte, byte_layout, has_pair, pair_layout, string_layout, bits_layout, decimal_layout, prefix_len, layout_at, byte_at, pair_at, real_type, string_len};

use crate::column::{ByteCount, DecimalSize, EnumSize, Layout, Precision};
use crate::fault::{MapFault, given};
use crate::type_code::{
    BIT, BLOB, DATE, DATETIME2, DOUBLE, ENUM, FLOAT, GEOMETRY, INT24, JSON, LONG, LONGLONG,
    NEWDECIMAL, SET, SHORT, STRING, TIME2, TIMESTAMP2, TINY, VAR_STRING, VARCHAR, YEAR,
};

/// The layout of a type without metadata.
fn plain_layout(code: u8) -> Option<Layout>
    ensures { result ≡ plain_layout code }
{
    match code {
        TINY => Some(Layout::Integer(ByteCount { bytes: 1 })),
        SHORT => Some(Layout::Integer(ByteCount { bytes: 2 })),
        INT24 => Some(Layout::Integer(ByteCount { bytes: 3 })),
        LONG => Some(Layout::Integer(ByteCount { bytes: 4 })),
        LONGLONG => Some(Layout::Integer(ByteCount { bytes: 8 })),
        YEAR => Some(Layout::Year),
        DATE => Some(Layout::Date),
        _ => None,
    }
}

fn has_byte(code: u8) -> bool
    ensures { result ≡ has_byte code }
{
    matches!(
        code,
        FLOAT | DOUBLE | TIMESTAMP2 | DATETIME2 | TIME2 | BLOB | JSON | GEOMETRY
    )
}

/// The layout of a type with one byte of metadata, where that is in range.
fn byte_layout(code: u8, byte: u8) -> Option<Layout>
    ensures { result ≡ byte_layout code byte }
{
    match code {
        FLOAT => Some(Layout::Float(ByteCount { bytes: 4 })),
        DOUBLE => Some(Layout::Float(ByteCount { bytes: 8 })),
        TIMESTAMP2 if byte <= 6 => Some(Layout::Timestamp(Precision { digits: byte })),
        DATETIME2 if byte <= 6 => Some(Layout::DateTime(Precision { digits: byte })),
        TIME2 if byte <= 6 => Some(Layout::Time(Precision { digits: byte })),
        TIMESTAMP2 | DATETIME2 | TIME2 => None,
        _ if byte < 1 || byte > 4 => None,
        BLOB => Some(Layout::Text(ByteCount { bytes: byte })),
        _ => Some(Layout::Raw(ByteCount { bytes: byte })),
    }
}

fn has_pair(code: u8) -> bool
    ensures { result ≡ has_pair code }
{
    matches!(code, VARCHAR | VAR_STRING | BIT | NEWDECIMAL | STRING)
}

/// The bytes that a length up to a greatest one takes.
fn prefix(greatest: u16) -> ByteCount
    ensures { result ≡ prefix_len greatest }
{
    if greatest <= 255 {
        ByteCount { bytes: 1 }
    } else {
        ByteCount { bytes: 2 }
    }
}

/// BIT, by its odd bits and its whole bytes.
fn bits_layout(odd: u8, whole: u8) -> Option<Layout>
    ensures { result ≡ bits_layout odd whole }
{
    if odd > 7 || whole > 8 {
        return None;
    }
    let bytes = whole + (odd + 7) / 8;
    if bytes < 1 || bytes > 8 {
        return None;
    }
    Some(Layout::Bits(ByteCount { bytes }))
}

/// NEWDECIMAL, by its digits and those after the point.
fn decimal_layout(precision: u8, scale: u8) -> Option<Layout>
    ensures { result ≡ decimal_layout precision scale }
{
    if precision < 1 || precision > 65 || scale > 30 || scale > precision {
        return None;
    }
    Some(Layout::Decimal(DecimalSize { precision, scale }))
}

/// STRING, by its real type and its length.
fn string_layout(real: u8, len: u16) -> Result<Layout, MapFault>
    ensures { GivesExactly (λ l. l) result (string_layout real len) }
{
    match real {
        STRING => Ok(Layout::Text(prefix(len))),
        ENUM => match len {
            1 => Ok(Layout::Enum(EnumSize { bytes: 1 })),
            2 => Ok(Layout::Enum(EnumSize { bytes: 2 })),
            _ => Err(MapFault::BadMap),
        },
        SET => match len {
            1 | 2 | 3 | 4 | 8 => Ok(Layout::Set(ByteCount { bytes: len as u8 })),
            _ => Err(MapFault::BadMap),
        },
        _ => Err(MapFault::TypeOutOfProfile(real)),
    }
}

/// The layout of a type with two bytes of metadata.
fn pair_layout(code: u8, first: u8, second: u8) -> Result<Layout, MapFault>
    ensures { GivesExactly (λ l. l) result (pair_layout code first second) }
{
    match code {
        BIT => match bits_layout(first, second) {
            Some(layout) => Ok(layout),
            None => Err(MapFault::BadMap),
        },
        NEWDECIMAL => match decimal_layout(first, second) {
            Some(layout) => Ok(layout),
            None => Err(MapFault::BadMap),
        },
        STRING => {
            if first & 48 == 48 {
                string_layout(first, u16::from(second))
            } else {
                let high = u16::from((first & 48) ^ 48) * 16;
                string_layout(first | 48, u16::from(second) | high)
            }
        }
        _ => Ok(Layout::Text(prefix(u16::from(first) + 256 * u16::from(second)))),
    }
}

/// The layout of a column's type, and how many bytes of the metadata it takes.
#[tactic(auto, unfolding(crate::specs::Columns::layout_at))]
pub(crate) fn layout_at(code: u8, metadata: &[u8]) -> Result<(Layout, usize), MapFault>
    ensures layout { GivesExactly (λ x. x) result (layout_at code metadata.now) }
    ensures within { IfOk result (λ x. x.1 ≤ length metadata.now) }
{
    if let Some(layout) = plain_layout(code) {
        return Ok((layout, 0));
    }
    if has_byte(code) {
        let [byte, ..] = metadata else {
            return Err(MapFault::BadMap);
        };
        let Some(layout) = byte_layout(code, *byte) else {
            return Err(MapFault::BadMap);
        };
        return Ok((layout, 1));
    }
    if has_pair(code) {
        let [first, second, ..] = metadata else {
            return Err(MapFault::BadMap);
        };
        let layout = given!(pair_layout(code, *first, *second));
        return Ok((layout, 2));
    }
    Err(MapFault::TypeOutOfProfile(code))
}
