//! Tags of sources: read from a text, compared and written.

ghost use Rattle.std.specs.Prelude.{◌≡◌, [], nat_eq, OnOk, OnErr, string_bytes};
ghost use Rattle.binlog_select.specs.Intervals.{lies_before};
ghost use Rattle.binlog_select.specs.Tags.{is_tag, is_tag_byte, names_tag, named, rank, tag_bytes, tag_number};
ghost use Rattle.binlog_select.specs.Text.{BeginsWith, GrowsBy};

use crate::interval::Interval;
use crate::source::Source;
use binlog_profile::Profile;
use std::alloc::AllocError;

/// The most bytes of a tag.
const MOST_BYTES: usize = 32;

/// The source of a server and a tag, which is empty where there is none.
pub(crate) fn named(server: u128, tag: &[u8]) -> Source
    ensures { result ≡ named server tag.now }
{
    Source {
        server,
        high: tag_number(tag),
        low: tag_number(&tag[tag.len().min(16)..]),
    }
}

/// The source of a server without a tag.
#[inline(always)]
pub(crate) fn untagged(server: u128) -> Source
    ensures { result ≡ named server [] }
{
    Source {
        server,
        high: 0,
        low: 0,
    }
}

/// The first 16 bytes of a tag in small letters as a number, the first byte highest, with zeros for
/// those that it lacks.
fn tag_number(tag: &[u8]) -> u128
    ensures { result ≡ tag_number tag.now }
{
    let count = tag.len().min(16);
    let mut bytes = [0; 16];
    bytes[..count].copy_from_slice(&tag[..count]);
    bytes.make_ascii_lowercase();
    u128::from_be_bytes(bytes)
}

/// Whether a part of a set's text is a tag. By the strict profile none is.
pub(crate) fn names_tag(profile: Profile, part: &[u8]) -> bool
    ensures { result ≡ names_tag profile part.now }
{
    match profile {
        Profile::Strict => false,
        Profile::Server => is_tag(part),
    }
}

/// Whether a text has 1 to 32 letters, digits and `_`, no digit first.
#[tactic(auto, using(crate::proofs::TagLemmas::is_tag_by))]
fn is_tag(text: &[u8]) -> bool
    ensures { result ≡ is_tag text.now }
{
    let [first, ..] = text else {
        return false;
    };
    if first.is_ascii_digit() || text.len() > MOST_BYTES {
        return false;
    }
    for byte in text {
        if !is_tag_byte(*byte) {
            return false;
        }
    }
    true
}

/// Whether a byte is a letter, a digit or `_`.
fn is_tag_byte(byte: u8) -> bool
    ensures { result ≡ is_tag_byte byte }
{
    byte.is_ascii_alphanumeric() || byte == b'_'
}

/// Whether an interval lies before a number of a source.
#[tactic(auto, unfolding(crate::specs::Tags::rank))]
pub(crate) fn lies_before(interval: &Interval, source: Source, number: u64) -> bool
    ensures { result ≡ lies_before interval.now (rank source) number }
{
    let own = interval.source;
    if own.server != source.server {
        return own.server < source.server;
    }
    if own.high != source.high {
        return own.high < source.high;
    }
    if own.low != source.low {
        return own.low < source.low;
    }
    interval.last < number
}

/// Whether two sources are one.
#[tactic(auto, unfolding(crate::specs::Tags::rank))]
pub(crate) fn is_same(source: Source, other: Source) -> bool
    ensures { result ≡ nat_eq (rank source) (rank other) }
{
    source.server == other.server && source.high == other.high && source.low == other.low
}

/// Appends the bytes of a tag that one of its numbers has.
pub(crate) fn push_tag_bytes(text: &mut String, number: u128) -> Result<(), AllocError>
    ensures ok { OnOk result (GrowsBy text.old text.new (tag_bytes number)) }
    ensures err { OnErr result (BeginsWith (string_bytes text.new) (string_bytes text.old)) }
{
    for byte in number.to_be_bytes() {
        if is_tag_byte(byte) {
            text.push(char::from(byte))?;
        }
    }
    Ok(())
}
