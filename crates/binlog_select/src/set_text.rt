//! Reading the text of a GTID set.

ghost use Rattle.std.specs.Prelude.{◌≡◌, Some, Err, All, IfSome, IfOk, reverse};
ghost use Rattle.binlog_select.specs.Appending.{AppendsRead, RefusesFirstBadBy, one_interval, spelled};
ghost use Rattle.binlog_select.specs.Intervals.{IsInterval};
ghost use Rattle.binlog_select.specs.Tags.{IsSource};
ghost use Rattle.binlog_select.specs.Parts.{parts};
ghost use Rattle.binlog_select.specs.SetText.{comma, is_blank, trimmed, without_leading_blanks, source_of, gtid_number, interval_in, intervals_in, elements, reading};

use crate::decimal::number;
use crate::interval::Interval;
use crate::set_fault::SetFault;
use crate::source::Source;
use crate::split::split_once;
use crate::tag::{named, names_tag, untagged};
use binlog_profile::Profile;
use std::alloc::Global;
use uuid::Uuid;
use uuid::fmt::Hyphenated;

/// The largest number of a GTID is below this.
const NUMBER_LIMIT: u64 = 1 << 63;

/// The text without blanks at either end.
fn trimmed(text: &[u8]) -> &[u8]
    ensures { result.now ≡ trimmed text.now }
{
    trimmed_end(trimmed_start(text))
}

/// The text without the blanks that it begins with.
fn trimmed_start(text: &[u8]) -> &[u8]
    ensures { result.now ≡ without_leading_blanks text.now }
{
    let mut rest = text;
    while let [first, more @ ..] = rest {
        if !is_blank(*first) {
            break;
        }
        rest = more;
    }
    rest
}

/// The text without the blanks that it ends with.
fn trimmed_end(text: &[u8]) -> &[u8]
    ensures { result.now ≡ reverse (without_leading_blanks (reverse text.now)) }
{
    let mut rest = text;
    while let [more @ .., last] = rest {
        if !is_blank(*last) {
            break;
        }
        rest = more;
    }
    rest
}

/// Whether a byte is a space, a tab, a CR or an LF.
fn is_blank(byte: u8) -> bool
    ensures { result ≡ is_blank byte }
{
    matches!(byte, b' ' | b'\t' | b'\r' | b'\n')
}

/// The source that a text of 36 characters spells, as a number.
fn source_of(text: &[u8]) -> Option<u128>
    ensures { result ≡ source_of text.now }
{
    if text.len() != Hyphenated::LENGTH {
        return None;
    }
    match Uuid::try_parse_ascii(text) {
        Ok(uuid) => Some(uuid.as_u128()),
        Err(_) => None,
    }
}

/// A number from 1 to 2^63 - 1.
fn gtid_number(digits: &[u8]) -> Option<u64>
    ensures { result ≡ gtid_number digits.now }
{
    match number(digits) {
        Some(n) if n > 0 && n < NUMBER_LIMIT => Some(n),
        _ => None,
    }
}

/// The interval of a source that a text spells: `n` or `n-m`.
fn interval_of(source: Source, text: &[u8]) -> Option<Interval>
    requires { IsSource source }
    ensures read { result ≡ interval_in source text.now }
    ensures valid { IfSome result IsInterval }
{
    let Some((first, last)) = split_once(text, b'-') else {
        let number = gtid_number(text)?;
        return Some(Interval {
            source,
            first: number,
            last: number,
        });
    };
    let Some(first) = gtid_number(first) else {
        return None;
    };
    let Some(last) = gtid_number(last) else {
        return None;
    };
    if first > last {
        return None;
    }
    Some(Interval {
        source,
        first,
        last,
    })
}

/// Appends the interval that a text spells.
#[tactic(auto, using(crate::proofs::IntervalLemmas::pushed_at))]
fn push_interval(
    intervals: &mut Vec<Interval>,
    source: Source,
    text: &[u8],
    at: usize,
) -> Result<(), SetFault>
    requires valid { All IsInterval intervals.old.items }
    requires source { IsSource source }
    ensures read { AppendsRead at (one_interval source text.now) intervals.old intervals.new result }
    ensures valid { All IsInterval intervals.new.items }
{
    let Some(interval) = interval_of(source, text) else {
        return Err(SetFault::BadSet { at });
    };
    intervals.push(interval)?;
    Ok(())
}

/// Appends the intervals of an element's parts, which are parted by colons. A tag names the interval
/// behind it, and all that follow until the next tag.
fn push_intervals(
    intervals: &mut Vec<Interval>,
    profile: Profile,
    source: Source,
    text: &[u8],
    at: usize,
) -> Result<(), SetFault>
    requires valid { All IsInterval intervals.old.items }
    requires source { IsSource source }
    ensures read { AppendsRead at (spelled profile source text.now) intervals.old intervals.new result }
    ensures valid { All IsInterval intervals.new.items }
{
    let mut source = source;
    let mut rest = text;
    while let Some((part, more)) = split_once(rest, b':') {
        if names_tag(profile, part) {
            source = named(source.server, part);
            let Some((next, behind)) = split_once(more, b':') else {
                return push_interval(intervals, source, more, at);
            };
            push_interval(intervals, source, next, at)?;
            rest = behind;
        } else {
            push_interval(intervals, source, part, at)?;
            rest = more;
        }
    }
    push_interval(intervals, source, rest, at)
}

/// Appends the intervals of an element, a server and its intervals, with or without blanks around it.
fn push_element(
    intervals: &mut Vec<Interval>,
    profile: Profile,
    text: &[u8],
    at: usize,
) -> Result<(), SetFault>
    requires { All IsInterval intervals.old.items }
    ensures read { AppendsRead at (intervals_in profile text.now) intervals.old intervals.new result }
    ensures valid { All IsInterval intervals.new.items }
{
    let Some((server, texts)) = split_once(trimmed(text), b':') else {
        return Err(SetFault::BadSet { at });
    };
    let Some(server) = source_of(server) else {
        return Err(SetFault::BadSet { at });
    };
    push_intervals(intervals, profile, untagged(server), texts, at)
}

/// The intervals of a set's text, in its order.
pub(crate) fn read(alloc: Global, profile: Profile, text: &[u8]) -> Result<Vec<Interval>, SetFault>
    ensures read { IfOk result (λ v. reading profile (elements text.now) ≡ Some v.items) }
    ensures valid { IfOk result (λ v. All IsInterval v.items) }
    ensures refused { RefusesFirstBadBy profile (elements text.now) result }
{
    if trimmed(text).is_empty() {
        return Ok(Vec::new(alloc));
    }
    read_elements(alloc, profile, text)
}

/// The intervals of elements, which are parted by commas.
fn read_elements(alloc: Global, profile: Profile, text: &[u8]) -> Result<Vec<Interval>, SetFault>
    ensures read { IfOk result (λ v. reading profile (parts comma text.now) ≡ Some v.items) }
    ensures valid { IfOk result (λ v. All IsInterval v.items) }
    ensures refused { RefusesFirstBadBy profile (parts comma text.now) result }
{
    let mut intervals = Vec::new(alloc);
    let mut rest = text;
    let mut at = 0;
    while let Some((element, more)) = split_once(rest, b',') {
        push_element(&mut intervals, profile, element, at)?;
        rest = more;
        at += 1;
    }
    push_element(&mut intervals, profile, rest, at)?;
    Ok(intervals)
}
