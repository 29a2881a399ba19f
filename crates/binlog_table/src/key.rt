//! The key of a table map: which columns it has, in its own order.
ghost use Rattle.std.specs.Prelude.{◌≡◌, ◌≤◌, ◌<◌, [], length, option_map, IfOk, Ok, Err, true, slice_index_or, if◌then◌else◌};
ghost use Rattle.binlog_table.specs.MapReads.{bytes_if, if_unseen};
ghost use Rattle.std.specs.List.{All};
ghost use Rattle.binlog_table.specs.MapResult.{Gives, GivesExactly};
ghost use Rattle.binlog_table.specs.declared.fault.MapFault.TheVariants.{BadMap};
ghost use Rattle.binlog_table.specs.Names.{index_at, key_from, key_in};

use crate::fault::{MapFault, given};
use crate::fields::number_at;
use std::alloc::Global;

/// The index of a column, and after it the length of a prefix where the key has prefixes; the bytes after them.
#[tactic(auto, unfolding(crate::specs::Names::index_at))]
fn index_at(prefixed: bool, bytes: &[u8]) -> Result<(u64, &[u8]), MapFault>
    ensures { GivesExactly (λ x. (x.0, x.1.now)) result (index_at prefixed bytes.now) }
{
    let (index, rest) = given!(number_at(bytes));
    if !prefixed {
        return Ok((index, rest));
    }
    let (_, rest) = given!(number_at(rest));
    Ok((index, rest))
}

/// The index of a column that wasn't seen yet; `seen` has a mark for each column.
fn unseen(seen: &[bool], index: u64) -> Result<usize, MapFault>
    ensures value { GivesExactly (λ i. i) result (if_unseen seen.now index) }
    ensures below { IfOk result (λ i. i < length seen.now) }
{
    if index >= seen.len() as u64 {
        return Err(MapFault::BadMap);
    }
    let index = index as usize;
    if seen[index] {
        return Err(MapFault::BadMap);
    }
    Ok(index)
}

/// The columns of a key, to the end of the bytes.
fn key_from(
    alloc: Global,
    prefixed: bool,
    count: usize,
    bytes: &[u8],
) -> Result<Vec<usize>, MapFault>
    ensures key { Gives (λ v. v.items) result (key_from (length bytes.now) prefixed count [] bytes.now) }
    ensures below { IfOk result (λ v. All (λ i. i < count) v.items) }
{
    let mut key = Vec::new(alloc);
    let mut seen = vec![in alloc; false; count]?;
    let mut rest = bytes;
    while !rest.is_empty() {
        let (index, after) = given!(index_at(prefixed, rest));
        let index = given!(unseen(&seen, index));
        seen[index] = true;
        key.push(index)?;
        rest = after;
    }
    Ok(key)
}

/// The columns of the key, of which there are none where no field names them.
pub(crate) fn key_in(
    alloc: Global,
    count: usize,
    plain: Option<&[u8]>,
    prefixed: Option<&[u8]>,
) -> Result<Vec<usize>, MapFault>
    ensures key { Gives (λ v. v.items) result (key_in count (bytes_if plain.entry) (bytes_if prefixed.entry)) }
    ensures below { IfOk result (λ v. All (λ i. i < count) v.items) }
{
    if let Some(bytes) = plain {
        return key_from(alloc, false, count, bytes);
    }
    if let Some(bytes) = prefixed {
        return key_from(alloc, true, count, bytes);
    }
    Ok(Vec::new(alloc))
}
