//! Integers and strings of JSON, at the end of a text.
ghost use Rattle.std.specs.Prelude.{◌≡◌, OnOk, decimal};
ghost use Rattle.std.specs.Fmt.{signed_decimal};
ghost use Rattle.json.specs.Print.{escape};
ghost use Rattle.binlog_json.specs.Joining.{comma_if};
ghost use Rattle.binlog_documents.specs.PlainText.{IsPlain};
ghost use Rattle.binlog_json.specs.Growth.{Gains, Quotes};

use crate::lines::Line;
use binlog_documents::is_plain;
use json::Writer;
use std::alloc::{AllocError, Global};
use std::mem;

/// The number in decimal digits, with its sign where it is below zero.
#[inline(always)]
pub(crate) fn append_integer(out: &mut Line, number: i64) -> Result<(), AllocError>
    ensures { OnOk result (Gains out.old out.new (signed_decimal number)) }
{
    if number >= 0 {
        return append_number(out, number.unsigned_abs());
    }
    out.push(b'-')?;
    append_number(out, number.unsigned_abs())
}

/// The number in decimal digits.
#[inline(always)]
pub(crate) fn append_number(out: &mut Line, number: u64) -> Result<(), AllocError>
    ensures { OnOk result (Gains out.old out.new (decimal number)) }
{
    out.push_number(number)
}

/// A comma, where something stands before it.
pub(crate) fn append_comma(out: &mut Line, later: bool) -> Result<(), AllocError>
    ensures { OnOk result (Gains out.old out.new (comma_if later)) }
{
    if later {
        out.push(b',')?;
    }
    Ok(())
}

/// A text that needs no escape, in quotes.
#[inline(always)]
pub(crate) fn append_as_is(out: &mut Line, text: &str) -> Result<(), AllocError>
    requires { escape text.now ≡ text.now }
    ensures { OnOk result (Quotes out.old out.new text.now) }
{
    out.push(b'"')?;
    out.push_str(text)?;
    out.push(b'"')
}

/// A text of ASCII characters that need no escape, in quotes.
#[inline(always)]
pub(crate) fn append_plain(out: &mut Line, text: &[u8]) -> Result<(), AllocError>
    requires { IsPlain text.now }
    ensures { OnOk result (Quotes out.old out.new text.now) }
{
    append_as_is(out, unsafe { str::from_utf8_unchecked(text) })
}

/// Writes strings of JSON. It keeps its room for the next one.
#[derive(Drop)]
pub(crate) struct Quoter {
    alloc: Global,
    room: Vec<u8>,
}

impl Quoter {
    pub(crate) fn new(alloc: Global) -> Quoter {
        Quoter {
            alloc,
            room: Vec::new(alloc),
        }
    }

    /// The text as a string, in quotes and escaped.
    pub(crate) fn append(&mut self, out: &mut Line, text: &str) -> Result<(), AllocError>
        ensures { OnOk result (Quotes out.old out.new text.now) }
    {
        if !is_plain::<0xff>(text.as_bytes()) {
            return self.append_escaped(out, text);
        }
        append_as_is(out, text)
    }

    /// The text as a string, in quotes, each byte judged for itself.
    fn append_escaped(&mut self, out: &mut Line, text: &str) -> Result<(), AllocError>
        ensures { OnOk result (Quotes out.old out.new text.now) }
    {
        self.room.clear();
        let mut writer = Writer::new(mem::replace(&mut self.room, Vec::new(self.alloc)));
        let written = writer.string(text);
        self.room = writer.into_inner();
        written?;
        out.push_str(unsafe { str::from_utf8_unchecked(&self.room) })
    }
}
