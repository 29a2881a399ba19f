//! Joining sorted intervals.

ghost use Rattle.std.specs.Prelude.{◌≡◌, All, IfOk};
ghost use Rattle.binlog_select.specs.Intervals.{IsInterval, IsJoined, SameNumbers, AreRising};
ghost use Rattle.binlog_select.specs.Joining.{touches, united, merged};

use crate::interval::Interval;
use crate::tag::is_same;
use std::alloc::{AllocError, Global};

/// The same numbers as intervals with a gap between any two of a source.
pub(crate) fn joined(alloc: Global, sorted: &[Interval]) -> Result<Vec<Interval>, AllocError>
    requires valid { All IsInterval sorted.now }
    requires rising { AreRising sorted.now }
    ensures joined { IfOk result (λ v. IsJoined v.items) }
    ensures same { IfOk result (λ v. SameNumbers v.items sorted.now) }
{
    let Some((first, rest)) = sorted.split_first() else {
        return Ok(Vec::new(alloc));
    };
    let joined = merged(alloc, *first, rest)?;
    Ok(joined)
}

/// The interval and those behind it, each joined to the next where the two touch.
fn merged(alloc: Global, first: Interval, rest: &[Interval]) -> Result<Vec<Interval>, AllocError>
    ensures { IfOk result (λ v. v.items ≡ merged first rest.now) }
{
    let mut joined = Vec::new(alloc);
    let mut current = first;
    for next in rest {
        if touches(current, *next) {
            current = united(current, *next);
        } else {
            joined.push(current)?;
            current = *next;
        }
    }
    joined.push(current)?;
    Ok(joined)
}

/// Whether an interval begins within another of its source, or right behind it.
fn touches(current: Interval, next: Interval) -> bool
    ensures { result ≡ touches current next }
{
    is_same(current.source, next.source) && next.first.saturating_sub(1) <= current.last
}

/// The two intervals as one.
fn united(current: Interval, next: Interval) -> Interval
    ensures { result ≡ united current next }
{
    Interval {
        source: current.source,
        first: current.first,
        last: current.last.max(next.last),
    }
}
