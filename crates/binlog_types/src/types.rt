//! The types of a table's columns, from the left.
ghost use Rattle.std.specs.Prelude.{◌≡◌, ◌+◌, ◌<◌, ◌^◌, ◌&&◌, None, slice_index, slice_index_or, IfOk, if◌then◌else◌};
ghost use Rattle.binlog_table.specs.Columns.{has_byte, has_pair, high_bit};
ghost use Rattle.binlog_table.specs.MapReads.{bytes_if};
ghost use Rattle.binlog_types.specs.ColumnTypes.{metadata_len, has_sign, is_text, is_named, is_vector, code_of, size_of, scale_of, in_two_bytes, dimensions_in, column_type, types_of};
ghost use Rattle.binlog_types.specs.Found.{listed_collation};

use crate::charsets::charset_of;
use crate::collations::{collations_of, numbers_from};
use crate::column_type::ColumnType;
use binlog_table::type_code::{
    BIT, BLOB, DATETIME2, DOUBLE, ENUM, FLOAT, GEOMETRY, INT24, JSON, LONG, LONGLONG, NEWDECIMAL,
    SET, SHORT, STRING, TIME2, TIMESTAMP2, TINY, VAR_STRING, VARCHAR, VECTOR, YEAR,
};
use binlog_table::{Fields, TableMap};
use std::alloc::{AllocError, Global};

fn has_byte(code: u8) -> bool
    ensures { result ≡ has_byte code }
{
    matches!(
        code,
        FLOAT | DOUBLE | TIMESTAMP2 | DATETIME2 | TIME2 | BLOB | JSON | GEOMETRY
    )
}

fn has_pair(code: u8) -> bool
    ensures { result ≡ has_pair code }
{
    matches!(code, VARCHAR | VAR_STRING | BIT | NEWDECIMAL | STRING)
}

/// Whether a type has a bit of signedness on real servers. YEAR has one.
fn has_sign(code: u8) -> bool
    ensures { result ≡ has_sign code }
{
    matches!(
        code,
        TINY | SHORT | LONG | FLOAT | DOUBLE | LONGLONG | INT24 | NEWDECIMAL | YEAR
    )
}

fn is_text(code: u8) -> bool
    ensures { result ≡ is_text code }
{
    matches!(code, VARCHAR | VAR_STRING | BLOB | STRING | VECTOR)
}

fn is_named(code: u8) -> bool
    ensures { result ≡ is_named code }
{
    matches!(code, ENUM | SET)
}

fn is_vector(code: u8) -> bool
    ensures { result ≡ is_vector code }
{
    code == VECTOR
}

/// How many bytes of metadata a type has.
fn metadata_len(code: u8) -> usize
    ensures { result ≡ metadata_len code }
{
    if has_byte(code) || is_vector(code) {
        1
    } else if has_pair(code) {
        2
    } else {
        0
    }
}

/// A byte of the metadata, or 0.
fn byte_at(bytes: &[u8], place: usize) -> u8
    ensures { result ≡ slice_index bytes.now place }
{
    match bytes.get(place) {
        Some(byte) => *byte,
        None => 0,
    }
}

fn code_of(code: u8, metadata: &[u8]) -> u8
    ensures { result ≡ code_of code metadata.now }
{
    if code != STRING {
        return code;
    }
    let first = byte_at(metadata, 0);
    if first & 48 == 48 { first } else { first | 48 }
}

fn size_of(code: u8, metadata: &[u8]) -> u16
    ensures { result ≡ size_of code metadata.now }
{
    let first = byte_at(metadata, 0);
    let second = byte_at(metadata, 1);
    match code {
        STRING => {
            if first & 48 == 48 {
                u16::from(second)
            } else {
                u16::from(second) | u16::from((first & 48) ^ 48) * 16
            }
        }
        VARCHAR | VAR_STRING => u16::from(first) + 256 * u16::from(second),
        BIT => u16::from(first) + 8 * u16::from(second),
        _ => {
            if has_byte(code) || has_pair(code) {
                u16::from(first)
            } else {
                0
            }
        }
    }
}

fn scale_of(code: u8, metadata: &[u8]) -> u8
    ensures { result ≡ scale_of code metadata.now }
{
    if code == NEWDECIMAL {
        byte_at(metadata, 1)
    } else {
        0
    }
}

/// A bit of a bitmap, the highest of each byte first.
fn high_bit(bitmap: &[u8], place: usize) -> bool
    ensures { result ≡ high_bit bitmap.now place }
{
    match bitmap.get(place / 8) {
        Some(byte) => (*byte >> (7 - place % 8)) % 2 == 1,
        None => false,
    }
}

/// Whether a column is unsigned, by the place of its bit.
fn is_unsigned(code: u8, signs: &[u8], place: usize) -> bool
    ensures { result ≡ (has_sign code && high_bit signs.now place) }
{
    has_sign(code) && high_bit(signs, place)
}

/// A number of dimensions, or 0 where it takes more than two bytes.
fn in_two_bytes(dimensions: u64) -> u16
    ensures { result ≡ in_two_bytes dimensions }
{
    if dimensions < 65_536 {
        dimensions as u16
    } else {
        0
    }
}

/// A column's type, by its type and metadata in the map, its dimensions, its sign and its collation.
fn column_type(
    code: u8,
    metadata: &[u8],
    dimensions: u64,
    unsigned: bool,
    collation: Option<u64>,
) -> ColumnType
    ensures { result ≡ column_type code metadata.now dimensions unsigned collation }
{
    ColumnType {
        code: code_of(code, metadata),
        size: if is_vector(code) {
            in_two_bytes(dimensions)
        } else {
            size_of(code, metadata)
        },
        scale: scale_of(code, metadata),
        unsigned,
        charset: match collation {
            None => None,
            Some(known) => charset_of(known),
        },
    }
}

/// How many columns were seen that have a bit of signedness, a character set, names of values, dimensions.
#[derive(Clone, Copy)]
struct Seen {
    signs: usize,
    texts: usize,
    names: usize,
    vectors: usize,
}

impl Seen {
    fn none() -> Seen
        ensures { result ≡ record { signs = 0; texts = 0; names = 0; vectors = 0 } }
    {
        Seen {
            signs: 0,
            texts: 0,
            names: 0,
            vectors: 0,
        }
    }
}

fn listed(collations: &[Option<u64>], index: usize) -> Option<u64>
    ensures { result ≡ slice_index_or collations.now index None }
{
    match collations.get(index) {
        None => None,
        Some(collation) => *collation,
    }
}

/// The collation of a column behind those that were seen.
fn listed_collation(
    real: u8,
    texts: &[Option<u64>],
    names: &[Option<u64>],
    seen: Seen,
) -> Option<u64>
    ensures { result ≡ listed_collation real texts.now names.now seen }
{
    if is_text(real) {
        listed(texts, seen.texts)
    } else if is_named(real) {
        listed(names, seen.names)
    } else {
        None
    }
}

/// How many were seen behind one more column, of which its type in the map and the real one are given.
fn behind(code: u8, real: u8, seen: Seen) -> Seen
    requires texts { (seen.signs + 1 < 2 ^ 64) × (seen.texts + 1 < 2 ^ 64) × (seen.names + 1 < 2 ^ 64) }
    requires vectors { seen.vectors + 1 < 2 ^ 64 }
    ensures signs { result.signs ≡ seen.signs + (if has_sign code then 1 else 0) }
    ensures texts { result.texts ≡ seen.texts + (if is_text real then 1 else 0) }
    ensures names { result.names ≡ seen.names + (if is_named real then 1 else 0) }
    ensures vectors { result.vectors ≡ seen.vectors + (if is_vector code then 1 else 0) }
{
    Seen {
        signs: if has_sign(code) {
            seen.signs + 1
        } else {
            seen.signs
        },
        texts: if is_text(real) {
            seen.texts + 1
        } else {
            seen.texts
        },
        names: if is_named(real) {
            seen.names + 1
        } else {
            seen.names
        },
        vectors: if is_vector(code) {
            seen.vectors + 1
        } else {
            seen.vectors
        },
    }
}

/// The numbers of dimensions, in the order of the VECTORs.
fn dimensions_in(alloc: Global, fields: &Fields<'_>) -> Result<Vec<u64>, AllocError>
    ensures { IfOk result (λ v. v.items ≡ dimensions_in (bytes_if fields.now.dimensions)) }
{
    let bytes = fields.dimensions.unwrap_or(&[]);
    numbers_from(alloc, bytes.len(), bytes)
}

/// A number of a list, or 0.
fn number_at(numbers: &[u64], place: usize) -> u64
    ensures { result ≡ slice_index numbers.now place }
{
    match numbers.get(place) {
        Some(number) => *number,
        None => 0,
    }
}

/// The types of the columns of a table. The only error is a refused growth.
pub fn types_of(alloc: Global, map: &TableMap) -> Result<Vec<ColumnType>, AllocError>
    ensures { IfOk result (λ v. v.items ≡ types_of map.now.sections) }
{
    let sections = map.sections();
    let fields = &sections.fields;
    let count = sections.types.len();
    let signs = fields.signs.unwrap_or(&[]);
    let texts = collations_of(
        alloc,
        count,
        fields.column_charset.unwrap_or(&[]),
        fields.default_charset.unwrap_or(&[]),
    )?;
    let names = collations_of(
        alloc,
        count,
        fields.column_name_charset.unwrap_or(&[]),
        fields.default_name_charset.unwrap_or(&[]),
    )?;
    let dimensions = dimensions_in(alloc, fields)?;
    let mut columns = Vec::with_capacity(alloc, count)?;
    let mut rest = sections.metadata;
    let mut seen = Seen::none();
    for code in sections.types {
        let real = code_of(*code, rest);
        let unsigned = is_unsigned(*code, signs, seen.signs);
        let collation = listed_collation(real, &texts, &names, seen);
        let own = number_at(&dimensions, seen.vectors);
        columns.push(column_type(*code, rest, own, unsigned, collation))?;
        seen = behind(*code, real, seen);
        rest = &rest[metadata_len(*code).min(rest.len())..];
    }
    Ok(columns)
}
