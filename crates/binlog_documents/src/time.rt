//! Dates and times as strings of JSON, at the end of a text.
ghost use Rattle.std.specs.Prelude.{◌≡◌, ◌<◌, ◌^◌, ◌∷◌, ◌++◌, OnOk, IfOk};
ghost use Rattle.binlog_documents.specs.Appended.{AppendsText};
ghost use Rattle.binlog_documents.specs.Opaques.{padded, day_text, clock_text, span_text, time_text, moment_text, shown_text, is_shown, time_opaque};

use crate::padded::push_padded;
use byteorder::{ByteOrder, LittleEndian};
use std::alloc::AllocError;

/// The column type of a DATE, and that of a TIME.
const DATE: u8 = 10;

const TIME: u8 = 11;

/// A mark, and a number in two digits behind it.
fn push_part(out: &mut Vec<u8>, mark: u8, number: u64) -> Result<(), AllocError>
    ensures { OnOk result (out.new.items ≡ out.old.items ++ mark ∷ padded 2 number) }
{
    out.push(mark)?;
    push_padded(out, number, 2)
}

/// The day of a packed date.
fn push_day(out: &mut Vec<u8>, packed: u64) -> Result<(), AllocError>
    ensures { OnOk result (out.new.items ≡ out.old.items ++ day_text packed) }
{
    let days = (packed >> 24) >> 17;
    push_padded(out, days / 32 / 13, 4)?;
    push_part(out, b'-', days / 32 % 13)?;
    push_part(out, b'-', days % 32)
}

/// The time of day of a packed time, whose hour is given.
fn push_clock(out: &mut Vec<u8>, hour: u64, packed: u64) -> Result<(), AllocError>
    ensures { OnOk result (out.new.items ≡ out.old.items ++ clock_text hour packed) }
{
    push_padded(out, hour, 2)?;
    push_part(out, b':', (packed >> 24) / 64 % 64)?;
    push_part(out, b':', (packed >> 24) % 64)?;
    out.push(b'.')?;
    push_padded(out, packed % (1 << 24), 6)
}

/// A TIME that isn't below zero.
fn push_span(out: &mut Vec<u8>, packed: u64) -> Result<(), AllocError>
    ensures { OnOk result (out.new.items ≡ out.old.items ++ span_text packed) }
{
    push_clock(out, (packed >> 24) / 4096 % 1024, packed)
}

fn push_time(out: &mut Vec<u8>, packed: u64) -> Result<(), AllocError>
    ensures { OnOk result (out.new.items ≡ out.old.items ++ time_text packed) }
{
    if packed < 1 << 63 {
        return push_span(out, packed);
    }
    out.push(b'-')?;
    push_span(out, u64::MAX - packed + 1)
}

/// A date, and the time of day but for a DATE.
fn push_moment(out: &mut Vec<u8>, kind: u8, packed: u64) -> Result<(), AllocError>
    ensures { OnOk result (out.new.items ≡ out.old.items ++ moment_text kind packed) }
{
    push_day(out, packed)?;
    if kind == DATE {
        return Ok(());
    }
    out.push(b' ')?;
    push_clock(out, (packed >> 24) / 4096 % 32, packed)
}

fn push_shown(out: &mut Vec<u8>, kind: u8, packed: u64) -> Result<(), AllocError>
    ensures { OnOk result (out.new.items ≡ out.old.items ++ shown_text kind packed) }
{
    if kind == TIME {
        return push_time(out, packed);
    }
    push_moment(out, kind, packed)
}

/// Whether a packed number is shown: a date isn't below zero.
fn is_shown(kind: u8, packed: u64) -> bool
    ensures { result ≡ is_shown kind packed }
{
    kind == TIME || packed < 1 << 63
}

/// A date or time in quotes, where the bytes are one. False, and nothing is appended, where they are none.
pub(crate) fn append_time(out: &mut Vec<u8>, kind: u8, bytes: &[u8]) -> Result<bool, AllocError>
    ensures { IfOk result (AppendsText out.old.items out.new.items (time_opaque kind bytes.now)) }
{
    if bytes.len() != 8 {
        return Ok(false);
    }
    let packed = LittleEndian::read_u64(bytes);
    if !is_shown(kind, packed) {
        return Ok(false);
    }
    out.push(b'"')?;
    push_shown(out, kind, packed)?;
    out.push(b'"')?;
    Ok(true)
}
