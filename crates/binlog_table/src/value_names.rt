//! The names of the values of ENUM and SET columns.
ghost use Rattle.std.specs.Prelude.{◌≡◌, ◌==◌, [], length, map, unwrap_or, IfOk, vec_len};
ghost use Rattle.binlog_table.specs.MapReads.{bytes_if};
ghost use Rattle.binlog_table.specs.MapResult.{Gives};
ghost use Rattle.binlog_table.specs.Names.{strings_at, list_in, value_names_of, value_names};
ghost use Rattle.binlog_table.specs.NamedShown.{named_view};
ghost use Rattle.binlog_table.specs.ValueNamesShown.{names_view};

use crate::column::{Column, Layout};
use crate::fault::{MapFault, given};
use crate::fields::{number_at, string_at};
use std::alloc::Global;

/// So many strings, and the bytes after them.
fn strings_of<'a>(
    alloc: Global,
    count: u64,
    bytes: &'a [u8],
) -> Result<(Vec<Vec<u8>>, &'a [u8]), MapFault>
    ensures { Gives (λ x. (map (λ v. v.items) x.0.items, x.1.now)) result (strings_at count bytes.now) }
{
    let mut strings = Vec::new(alloc);
    let mut rest = bytes;
    for _ in 0..count {
        let (text, after) = given!(string_at(rest));
        strings.push(Vec::from_slice(alloc, text)?)?;
        rest = after;
    }
    Ok((strings, rest))
}

/// The names of the next column, where there is such a field, and what is left of it.
#[tactic(auto, unfolding(crate::specs::Names::list_in))]
fn list_in<'a>(
    alloc: Global,
    field: Option<&'a [u8]>,
) -> Result<(Option<Vec<Vec<u8>>>, Option<&'a [u8]>), MapFault>
    ensures { Gives (λ x. (names_view x.0, bytes_if x.1)) result (list_in (bytes_if field.entry)) }
{
    let Some(bytes) = field else {
        return Ok((None, None));
    };
    let (count, rest) = given!(number_at(bytes));
    let (names, rest) = given!(strings_of(alloc, count, rest));
    Ok((Some(names), Some(rest)))
}

/// The names of a column's values, and what is left of the fields of SETs and of ENUMs.
#[derive(Drop)]
struct Named<'a> {
    names: Option<Vec<Vec<u8>>>,
    sets: Option<&'a [u8]>,
    enums: Option<&'a [u8]>,
}

/// The names of a column with a layout.
#[tactic(auto, unfolding(crate::specs::Names::value_names_of))]
fn value_names_of<'a>(
    alloc: Global,
    layout: &Layout,
    sets: Option<&'a [u8]>,
    enums: Option<&'a [u8]>,
) -> Result<Named<'a>, MapFault>
    ensures { Gives named_view result (value_names_of layout.now (bytes_if sets.entry) (bytes_if enums.entry)) }
{
    match layout {
        Layout::Set(_) => {
            let (names, sets) = given!(list_in(alloc, sets));
            Ok(Named { names, sets, enums })
        }
        Layout::Enum(_) => {
            let (names, enums) = given!(list_in(alloc, enums));
            Ok(Named { names, sets, enums })
        }
        _ => Ok(Named {
            names: None,
            sets,
            enums,
        }),
    }
}

/// Whether nothing is left of a field.
fn is_used_up(field: Option<&[u8]>) -> bool
    ensures { result ≡ (length (unwrap_or (bytes_if field.entry) []) == 0) }
{
    match field {
        None => true,
        Some(bytes) => bytes.is_empty(),
    }
}

/// The names of the values of each column that is an ENUM or a SET, where the fields hold exactly them.
pub(crate) fn value_names(
    alloc: Global,
    columns: &[Column],
    sets: Option<&[u8]>,
    enums: Option<&[u8]>,
) -> Result<Vec<Option<Vec<Vec<u8>>>>, MapFault>
    ensures names { Gives (λ v. map names_view v.items) result (value_names columns.now (bytes_if sets.entry) (bytes_if enums.entry)) }
    ensures count { IfOk result (λ v. vec_len v ≡ length columns.now) }
{
    let mut all = Vec::with_capacity(alloc, columns.len())?;
    let mut sets_left = sets;
    let mut enums_left = enums;
    for column in columns {
        let named = given!(value_names_of(alloc, &column.layout, sets_left, enums_left));
        sets_left = named.sets;
        enums_left = named.enums;
        all.push(named.names)?;
    }
    if !is_used_up(sets_left) {
        return Err(MapFault::BadMap);
    }
    if !is_used_up(enums_left) {
        return Err(MapFault::BadMap);
    }
    Ok(all)
}
