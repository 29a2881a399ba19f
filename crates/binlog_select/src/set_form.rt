//! Writing a GTID set.

ghost use Rattle.std.specs.Prelude.{◌≡◌, ◌∷◌, OnOk, OnErr, string_bytes};
ghost use Rattle.binlog_select.specs.SetForm.{source_text, interval_text, next_source, next_text, next_texts, tag_text, written};
ghost use Rattle.binlog_select.specs.SetText.{colon};
ghost use Rattle.binlog_select.specs.Text.{BeginsWith, GrowsBy};

use crate::decimal::push_number;
use crate::interval::Interval;
use crate::source::Source;
use crate::tag::{is_same, push_tag_bytes};
use std::alloc::AllocError;
use uuid::Uuid;

/// Appends the written form of a set's intervals.
pub(crate) fn write(intervals: &[Interval], text: &mut String) -> Result<(), AllocError>
    ensures ok { OnOk result (GrowsBy text.old text.new (written intervals.now)) }
    ensures err { OnErr result (BeginsWith (string_bytes text.new) (string_bytes text.old)) }
{
    let Some((first, rest)) = intervals.split_first() else {
        return Ok(());
    };
    push_server(text, first.source.server)?;
    push_tag(text, first.source)?;
    push_interval(text, *first)?;
    push_rest(text, first.source, rest)
}

/// Appends the intervals behind one of a source.
fn push_rest(text: &mut String, source: Source, rest: &[Interval]) -> Result<(), AllocError>
    ensures ok { OnOk result (GrowsBy text.old text.new (next_texts source rest.now)) }
    ensures err { OnErr result (BeginsWith (string_bytes text.new) (string_bytes text.old)) }
{
    let mut source = source;
    for interval in rest {
        push_next(text, source, *interval)?;
        source = interval.source;
    }
    Ok(())
}

/// Appends the interval behind one of a source.
fn push_next(text: &mut String, source: Source, interval: Interval) -> Result<(), AllocError>
    ensures ok { OnOk result (GrowsBy text.old text.new (next_text source interval)) }
    ensures err { OnErr result (BeginsWith (string_bytes text.new) (string_bytes text.old)) }
{
    push_source(text, source, interval.source)?;
    push_interval(text, interval)
}

/// Appends what names the next source behind another.
fn push_source(text: &mut String, source: Source, next: Source) -> Result<(), AllocError>
    ensures ok { OnOk result (GrowsBy text.old text.new (next_source source next)) }
    ensures err { OnErr result (BeginsWith (string_bytes text.new) (string_bytes text.old)) }
{
    if is_same(next, source) {
        return Ok(());
    }
    if next.server != source.server {
        text.push(',')?;
        push_server(text, next.server)?;
    }
    push_tag(text, next)
}

/// Appends a colon and a source's tag, where it has one.
fn push_tag(text: &mut String, source: Source) -> Result<(), AllocError>
    ensures ok { OnOk result (GrowsBy text.old text.new (tag_text source)) }
    ensures err { OnErr result (BeginsWith (string_bytes text.new) (string_bytes text.old)) }
{
    if source.high == 0 {
        return Ok(());
    }
    text.push(':')?;
    push_tag_bytes(text, source.high)?;
    push_tag_bytes(text, source.low)
}

/// Appends a colon and an interval.
fn push_interval(text: &mut String, interval: Interval) -> Result<(), AllocError>
    ensures ok { OnOk result (GrowsBy text.old text.new (colon ∷ interval_text interval)) }
    ensures err { OnErr result (BeginsWith (string_bytes text.new) (string_bytes text.old)) }
{
    text.push(':')?;
    push_number(text, interval.first)?;
    if interval.first == interval.last {
        return Ok(());
    }
    text.push('-')?;
    push_number(text, interval.last)
}

/// Appends a server.
fn push_server(text: &mut String, server: u128) -> Result<(), AllocError>
    ensures ok { OnOk result (GrowsBy text.old text.new (source_text server)) }
    ensures err { OnErr result (string_bytes text.new ≡ string_bytes text.old) }
{
    let mut buffer = Uuid::encode_buffer();
    text.push_str(
        Uuid::from_u128(server)
            .hyphenated()
            .encode_lower(&mut buffer),
    )?;
    Ok(())
}
