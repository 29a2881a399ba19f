//! The collations of a table's columns, by two optional fields of its map.
ghost use Rattle.std.specs.Prelude.{◌≡◌, None, IfOk};
ghost use Rattle.binlog_types.specs.ColumnTypes.{numbers_from, collation_at, collations_of};
ghost use Rattle.binlog_types.specs.Found.{collation_among, first_collations, others_below};

use binlog_table::packed_at;
use std::alloc::{AllocError, Global};

/// The packed numbers that stand one after another, and no more than so many.
pub(crate) fn numbers_from(alloc: Global, most: usize, bytes: &[u8]) -> Result<Vec<u64>, AllocError>
    ensures { IfOk result (λ v. v.items ≡ numbers_from most bytes.now) }
{
    let mut numbers = Vec::new(alloc);
    let mut rest = bytes;
    for _ in 0..most {
        let Some((number, len)) = packed_at(rest) else {
            return Ok(numbers);
        };
        numbers.push(number)?;
        rest = &rest[len..];
    }
    Ok(numbers)
}

/// For each index below the count, the number that stands behind it in the first of the pairs of both that is for it. A pair is
/// looked at once, however many columns there are.
fn others_of(alloc: Global, count: usize, pairs: &[u64]) -> Result<Vec<Option<u64>>, AllocError>
    ensures { IfOk result (λ v. v.items ≡ others_below count pairs.now) }
{
    let mut others = vec![in alloc; None; count]?;
    let mut rest = pairs;
    while let [index, collation, more @ ..] = rest {
        let place = *index as usize;
        if place < count && others[place].is_none() {
            others[place] = Some(*collation);
        }
        rest = more;
    }
    Ok(others)
}

/// The collation by a column's own number, else by the pair that is for it, and else the usual one, the first of its field.
fn collation_at(own: &[u64], others: &[Option<u64>], usual: &[u64], index: usize) -> Option<u64>
    ensures { result ≡ collation_among own.now others.now usual.now index }
{
    if let Some(collation) = own.get(index) {
        return Some(*collation);
    }
    if let Some(Some(collation)) = others.get(index) {
        return Some(*collation);
    }
    usual.first().copied()
}

/// The collations of so many columns, by the fields for each one and for the usual one.
pub(crate) fn collations_of(
    alloc: Global,
    count: usize,
    each: &[u8],
    usual: &[u8],
) -> Result<Vec<Option<u64>>, AllocError>
    ensures { IfOk result (λ v. v.items ≡ first_collations count (collations_of each.now usual.now)) }
{
    let own = numbers_from(alloc, count.min(each.len()), each)?;
    let usual = numbers_from(alloc, usual.len(), usual)?;
    let others = others_of(alloc, count, &usual[usual.len().min(1)..])?;
    let mut collations = Vec::with_capacity(alloc, count)?;
    for index in 0..count {
        collations.push(collation_at(&own, &others, &usual, index))?;
    }
    Ok(collations)
}
