//! The columns of a table map, by their types, metadata and bits of signedness.
ghost use Rattle.std.specs.Prelude.{◌≡◌, ◌≤◌, ◌<◌, ◌^◌, ◌&&◌, ◌+◌, length, vec_len, option_map, is_some, true, IfOk};
ghost use Rattle.binlog_table.specs.MapReads.{bytes_if};
ghost use Rattle.binlog_table.specs.MapResult.{Gives, GivesExactly};
ghost use Rattle.binlog_table.specs.Columns.{is_numeric, high_bit, next_numeric, columns_at, stored_as};
ghost use Rattle.binlog_table.specs.Map.{are_named, columns_in, columns_stand};
ghost use Rattle.binlog_table.specs.SectionsShown.{sections_view};

use crate::column::Column;
use crate::fault::{MapFault, given};
use crate::layout::layout_at;
use crate::sections::Sections;
use crate::type_code::{
    DOUBLE, FLOAT, GEOMETRY, INT24, LONG, LONGLONG, NEWDECIMAL, SHORT, TINY, VECTOR,
};
use binlog_profile::Profile;
use std::alloc::Global;

/// Whether a type has a bit of signedness. YEAR has none.
fn is_numeric(code: u8) -> bool
    ensures { result ≡ is_numeric code }
{
    matches!(
        code,
        TINY | SHORT | LONG | FLOAT | DOUBLE | LONGLONG | INT24 | NEWDECIMAL
    )
}

/// A bit of a bitmap, the highest of each byte first.
fn high_bit(bitmap: &[u8], place: usize) -> bool
    ensures { result ≡ high_bit bitmap.now place }
{
    match bitmap.get(place / 8) {
        Some(byte) => (*byte >> (7 - place % 8)) % 2 == 1,
        None => false,
    }
}

/// The sign of a column of a type, after so many numeric columns.
fn is_unsigned(code: u8, signs: &[u8], numeric: usize) -> bool
    ensures { result ≡ (is_numeric code && high_bit signs.now numeric) }
{
    is_numeric(code) && high_bit(signs, numeric)
}

/// How many numeric columns there are with one of a type.
fn next_numeric(code: u8, numeric: usize) -> usize
    requires { numeric + 1 < 2 ^ 64 }
    ensures value { result ≡ next_numeric code numeric }
    ensures bound { result ≤ numeric + 1 }
{
    if is_numeric(code) {
        numeric + 1
    } else {
        numeric
    }
}

/// The type as which one stands in a row by a profile.
fn stored_as(profile: Profile, code: u8) -> u8
    ensures { result ≡ stored_as profile code }
{
    match profile {
        Profile::Server if code == VECTOR => GEOMETRY,
        Profile::Strict | Profile::Server => code,
    }
}

/// The columns of these types, the metadata that is left, and how many are numeric.
pub(crate) fn columns_of<'a>(
    alloc: Global,
    profile: Profile,
    types: &[u8],
    metadata: &'a [u8],
    signs: &[u8],
) -> Result<(Vec<Column>, &'a [u8], usize), MapFault>
    ensures columns { Gives (λ x. (x.0.items, (x.1.now, x.2))) result (columns_at profile types.now metadata.now signs.now 0) }
    ensures count { IfOk result (λ x. vec_len x.0 ≡ length types.now) }
{
    let mut columns = Vec::with_capacity(alloc, types.len())?;
    let mut rest = metadata;
    let mut numeric = 0;
    for code in types {
        let (layout, len) = given!(layout_at(stored_as(profile, *code), rest));
        let unsigned = is_unsigned(*code, signs, numeric);
        columns.push(Column { layout, unsigned })?;
        numeric = next_numeric(*code, numeric);
        rest = &rest[len..];
    }
    Ok((columns, rest, numeric))
}

/// Whether columns stand as they were read: no metadata is left, they have names, and each numeric one has a bit.
fn columns_stand(
    profile: Profile,
    left: &[u8],
    names: Option<&[u8]>,
    signs: &[u8],
    numeric: usize,
) -> Result<(), MapFault>
    ensures stand { GivesExactly (λ _. numeric) result (columns_stand profile left.now (bytes_if names.entry) signs.now numeric) }
    ensures named { IfOk result (λ _. are_named profile (bytes_if names.entry) ≡ true) }
{
    if !left.is_empty() {
        return Err(MapFault::BadMap);
    }
    if profile == Profile::Strict && names.is_none() {
        return Err(MapFault::NoColumnNames);
    }
    if signs.len() < numeric.div_ceil(8) {
        return Err(MapFault::BadMap);
    }
    Ok(())
}

/// The columns of a body's sections.
pub(crate) fn columns_in(
    alloc: Global,
    profile: Profile,
    sections: &Sections<'_>,
) -> Result<Vec<Column>, MapFault>
    ensures columns { Gives (λ v. v.items) result (columns_in profile (sections_view sections.now)) }
    ensures count { IfOk result (λ v. vec_len v ≡ length sections.now.types.now) }
    ensures named { IfOk result (λ _. are_named profile (bytes_if sections.now.fields.names) ≡ true) }
{
    let fields = &sections.fields;
    let signs = fields.signs.unwrap_or(&[]);
    let (columns, left, numeric) = given!(columns_of(
        alloc,
        profile,
        sections.types,
        sections.metadata,
        signs
    ));
    given!(columns_stand(profile, left, fields.names, signs, numeric));
    Ok(columns)
}
