//! The parts of the body of a table map, as they stand.
ghost use Rattle.std.specs.Prelude.{◌≡◌, ◌≤◌, ◌+◌, ◌/◌};
ghost use Rattle.binlog_table.specs.MapResult.{GivesExactly};
ghost use Rattle.binlog_table.specs.Map.{sections_at, sections_after, table_names_at, count_at, types_at, counted};
ghost use Rattle.binlog_table.specs.SectionsShown.{sections_view};

use crate::fault::{MapFault, given};
use crate::fields::{Fields, bytes_at, fields_of, name_at, number_at, string_at};
use byteorder::{ByteOrder, LittleEndian};

/// The sections of a table map's body as they stand.
#[derive(Clone, Copy)]
pub struct Sections<'a> {
    pub table_id: u64,
    pub schema: &'a str,
    pub table: &'a str,
    /// A type for each column.
    pub types: &'a [u8],
    pub metadata: &'a [u8],
    pub fields: Fields<'a>,
}

/// A number of columns that a table may have.
fn counted(count: u64) -> Result<u64, MapFault>
    ensures { GivesExactly (λ n. n) result (counted count) }
{
    if count < 1 || count > 4096 {
        return Err(MapFault::BadMap);
    }
    Ok(count)
}

/// How many bytes the bits of so many columns take.
fn nulls_len(count: u64) -> u64
    requires { count ≤ 4096 }
    ensures { result ≡ (count + 7) / 8 }
{
    (count + 7) / 8
}

/// The names of the schema and of the table, and the bytes after them.
fn table_names_at(bytes: &[u8]) -> Result<(&str, &str, &[u8]), MapFault>
    ensures { GivesExactly (λ x. (x.0.now, (x.1.now, x.2.now))) result (table_names_at bytes.now) }
{
    let (schema, rest) = given!(name_at(bytes));
    let (table, rest) = given!(name_at(rest));
    Ok((schema, table, rest))
}

/// How many columns there are, and the bytes after that number.
fn count_at(bytes: &[u8]) -> Result<(u64, &[u8]), MapFault>
    ensures { GivesExactly (λ x. (x.0, x.1.now)) result (count_at bytes.now) }
{
    let (count, rest) = given!(number_at(bytes));
    Ok((given!(counted(count)), rest))
}

/// The types of the columns and their metadata, and the bytes after the bits of nulls.
fn types_at(bytes: &[u8]) -> Result<(&[u8], &[u8], &[u8]), MapFault>
    ensures { GivesExactly (λ x. (x.0.now, (x.1.now, x.2.now))) result (types_at bytes.now) }
{
    let (count, rest) = given!(count_at(bytes));
    let (types, rest) = given!(bytes_at(count, rest));
    let (metadata, rest) = given!(string_at(rest));
    let (_, rest) = given!(bytes_at(nulls_len(count), rest));
    Ok((types, metadata, rest))
}

/// The sections after the table id and the flags.
#[tactic(auto, unfolding(crate::specs::Map::sections_after))]
fn sections_after(table_id: u64, bytes: &[u8]) -> Result<Sections<'_>, MapFault>
    ensures { GivesExactly sections_view result (sections_after table_id bytes.now) }
{
    let (schema, table, rest) = given!(table_names_at(bytes));
    let (types, metadata, rest) = given!(types_at(rest));
    let fields = given!(fields_of(rest));
    Ok(Sections {
        table_id,
        schema,
        table,
        types,
        metadata,
        fields,
    })
}

/// The sections of a body.
#[tactic(auto, unfolding(crate::specs::Map::sections_at))]
pub(crate) fn sections_at(body: &[u8]) -> Result<Sections<'_>, MapFault>
    ensures { GivesExactly sections_view result (sections_at body.now) }
{
    if body.len() < 8 {
        return Err(MapFault::BadMap);
    }
    sections_after(LittleEndian::read_u48(body), &body[8..])
}
