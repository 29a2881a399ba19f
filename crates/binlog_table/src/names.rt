//! The names of columns, and the columns in the order of their names.
ghost use Rattle.std.specs.Prelude.{◌≡◌, ◌≤◌, ◌<◌, ◌+◌, ◌-◌, true, false, ℕ, List, Ok, length, map, option_map, is_some, IfOk, vec_len};
ghost use Rattle.binlog_table.specs.Map.{are_named};
ghost use Rattle.binlog_table.specs.MapReads.{bytes_if, RepeatsAt, RepeatsNotAt, RepeatsNowhere, AreRepeated};
ghost use Rattle.std.specs.String.{string_bytes};
ghost use Rattle.binlog_table.specs.MapResult.{Gives};
ghost use Rattle.binlog_table.specs.Names.{names_at, column_names, names_in, number_name, number_names, distinct_names, are_distinct, used_up};
ghost use Rattle.binlog_table.specs.NameOrder.{IsNameOrder, AreNumbered, AreSorted, name_of, name_in, column_in};

use crate::fault::{MapFault, given};
use crate::fields::{string_at, text_of};
use binlog_profile::Profile;
use std::alloc::{AllocError, Global};

/// The names of columns, and the columns in the order of their names.
#[derive(Drop)]
pub(crate) struct ColumnNames {
    pub(crate) names: Vec<String>,
    pub(crate) order: Vec<usize>,
}

/// So many names, and the bytes after them.
fn names_of<'a>(
    alloc: Global,
    count: usize,
    bytes: &'a [u8],
) -> Result<(Vec<String>, &'a [u8]), MapFault>
    ensures names { Gives (λ x. (map string_bytes x.0.items, x.1.now)) result (names_at count bytes.now) }
    ensures count { IfOk result (λ x. vec_len x.0 ≡ count) }
{
    let mut names = Vec::with_capacity(alloc, count)?;
    let mut rest = bytes;
    for _ in 0..count {
        let (text, after) = given!(string_at(rest));
        let name = given!(text_of(text));
        names.push(String::from_str(alloc, name)?)?;
        rest = after;
    }
    Ok((names, rest))
}

/// The names with their columns.
fn numbered_names<'a>(
    alloc: Global,
    names: &'a [String],
) -> Result<Vec<(&'a str, usize)>, AllocError>
    ensures { IfOk result (λ v. AreNumbered (map string_bytes names.now) (length names.now) v.items) }
{
    let mut entries = Vec::with_capacity(alloc, names.len())?;
    for (column, name) in names.iter().enumerate() {
        entries.push((name.as_str(), column))?;
    }
    Ok(entries)
}

/// The names with their columns, in ascending order.
fn sorted_names<'a>(alloc: Global, names: &'a [String]) -> Result<Vec<(&'a str, usize)>, AllocError>
    ensures { IfOk result (λ v. AreSorted (map string_bytes names.now) v.items) }
{
    let mut entries = numbered_names(alloc, names)?;
    entries.sort_unstable();
    Ok(entries)
}

/// Whether the name at a place is that in front of it.
fn is_repeated(sorted: &[(&str, usize)], place: usize) -> bool
    requires { place < length sorted.now }
    ensures yes { result ≡ true → RepeatsAt sorted.now place }
    ensures no { result ≡ false → RepeatsNotAt sorted.now place }
{
    place > 0 && sorted[place - 1].0 == sorted[place].0
}

/// Whether a name stands twice.
fn has_repeated(sorted: &[(&str, usize)]) -> bool
    ensures yes { result ≡ true → AreRepeated sorted.now }
    ensures no { result ≡ false → RepeatsNowhere sorted.now }
{
    for place in 0..sorted.len() {
        if is_repeated(sorted, place) {
            return true;
        }
    }
    false
}

/// The columns of sorted names.
fn sorted_columns(alloc: Global, sorted: &[(&str, usize)]) -> Result<Vec<usize>, AllocError>
    ensures { IfOk result (λ o. o.items ≡ map column_in sorted.now) }
{
    let mut columns = Vec::with_capacity(alloc, sorted.len())?;
    for (_, column) in sorted {
        columns.push(*column)?;
    }
    Ok(columns)
}

/// The columns in the order of their names, where no name stands twice.
fn name_order(alloc: Global, names: &[String]) -> Result<Vec<usize>, MapFault>
    ensures distinct { Gives (λ _. map string_bytes names.now) result (distinct_names (map string_bytes names.now)) }
    ensures order { IfOk result (λ o. IsNameOrder (map string_bytes names.now) o.items) }
{
    let sorted = sorted_names(alloc, names)?;
    if has_repeated(&sorted) {
        return Err(MapFault::BadMap);
    }
    Ok(sorted_columns(alloc, &sorted)?)
}

/// A column by its number.
fn number_name(alloc: Global, number: usize) -> Result<String, AllocError>
    ensures { IfOk result (λ name. string_bytes name ≡ number_name number) }
{
    let mut buffer = itoa::Buffer::new();
    let mut name = String::from_str(alloc, "@")?;
    name.push_str(buffer.format(number))?;
    Ok(name)
}

/// So many columns by their numbers, from 1 on.
fn number_names(alloc: Global, count: usize) -> Result<Vec<String>, AllocError>
    ensures names { IfOk result (λ names. map string_bytes names.items ≡ number_names 1 count) }
    ensures count { IfOk result (λ names. vec_len names ≡ count) }
{
    let mut names = Vec::with_capacity(alloc, count)?;
    for column in 0..count {
        names.push(number_name(alloc, column + 1)?)?;
    }
    Ok(names)
}

/// The names of so many columns that have none: their numbers.
fn numbered_columns(alloc: Global, count: usize) -> Result<ColumnNames, MapFault>
    ensures names { Gives (λ n. map string_bytes n.names.items) result (Ok (number_names 1 count)) }
    ensures count { IfOk result (λ n. vec_len n.names ≡ count) }
    ensures order { IfOk result (λ n. IsNameOrder (map string_bytes n.names.items) n.order.items) }
{
    let names = number_names(alloc, count)?;
    let order = given!(name_order(alloc, &names));
    Ok(ColumnNames { names, order })
}

/// The distinct names of so many columns. Where there is no such field, there are none by the strict profile, and their numbers by the
/// server's.
#[tactic(auto, unfolding(crate::specs::Names::column_names))]
pub(crate) fn column_names(
    alloc: Global,
    profile: Profile,
    count: usize,
    field: Option<&[u8]>,
) -> Result<ColumnNames, MapFault>
    ensures names { Gives (λ n. map string_bytes n.names.items) result (names_in profile count (bytes_if field.entry)) }
    ensures count { IfOk result (λ n. are_named profile (bytes_if field.entry) ≡ true → vec_len n.names ≡ count) }
    ensures order { IfOk result (λ n. IsNameOrder (map string_bytes n.names.items) n.order.items) }
{
    let Some(bytes) = field else {
        return match profile {
            Profile::Strict => Ok(ColumnNames {
                names: Vec::new(alloc),
                order: Vec::new(alloc),
            }),
            Profile::Server => numbered_columns(alloc, count),
        };
    };
    let (names, rest) = given!(names_of(alloc, count, bytes));
    if !rest.is_empty() {
        return Err(MapFault::BadMap);
    }
    let order = given!(name_order(alloc, &names));
    Ok(ColumnNames { names, order })
}
