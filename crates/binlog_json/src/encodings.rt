//! Texts in the encodings of character sets, as UTF-8.
ghost use Rattle.std.specs.Prelude.{◌≡◌, [], IfOk};
ghost use Rattle.binlog_json.specs.Encodings.{text_by, unit_in, units_of, utf16_in, utf32_code, utf32_text, decoded};
ghost use Rattle.binlog_json.specs.Reading.{IsRead, HasRead};

use binlog_types::{Encoding, character_table};
use std::alloc::{AllocError, Global};

/// Reads texts. It keeps its units for the next one; a text in UTF-16 takes memory of its own.
#[derive(Drop)]
pub(crate) struct Decoder {
    pub(crate) alloc: Global,
    units: Vec<u16>,
}

/// Which byte of a unit of two bytes stands first.
#[derive(Clone, Copy)]
pub(crate) enum ByteOrder {
    HighFirst,
    LowFirst,
}

impl Decoder {
    pub(crate) fn new(alloc: Global) -> Decoder {
        Decoder {
            alloc,
            units: Vec::new(alloc),
        }
    }

    /// Appends bytes in an encoding to a text. Whether they are a text in it: if not, anything may have been appended.
    pub(crate) fn append(
        &mut self,
        text: &mut String,
        encoding: Encoding,
        bytes: &[u8],
    ) -> Result<bool, AllocError>
        ensures { IfOk result (HasRead text.old text.new (decoded encoding bytes.now)) }
    {
        match encoding {
            Encoding::Utf8 => append_utf8(text, bytes),
            Encoding::Utf16 => self.append_utf16(text, ByteOrder::HighFirst, bytes),
            Encoding::Utf16le => self.append_utf16(text, ByteOrder::LowFirst, bytes),
            Encoding::Utf32 => append_utf32(text, bytes),
            Encoding::Binary => Ok(false),
            Encoding::ByTable(charset) => match character_table(charset) {
                None => Ok(false),
                Some(table) => append_by(table, text, bytes),
            },
        }
    }

    fn append_utf16(
        &mut self,
        text: &mut String,
        order: ByteOrder,
        bytes: &[u8],
    ) -> Result<bool, AllocError>
        ensures { IfOk result (HasRead text.old text.new (utf16_in order bytes.now)) }
    {
        if !take_units(&mut self.units, order, bytes)? {
            return Ok(false);
        }
        match String::from_utf16(self.alloc, &self.units)? {
            Err(_) => Ok(false),
            Ok(read) => {
                text.push_str(read.as_str())?;
                Ok(true)
            }
        }
    }
}

fn append_utf8(text: &mut String, bytes: &[u8]) -> Result<bool, AllocError>
    ensures { IfOk result (HasRead text.old text.new (decoded Encoding.Utf8 bytes.now)) }
{
    match str::from_utf8(bytes) {
        Err(_) => Ok(false),
        Ok(read) => {
            text.push_str(read)?;
            Ok(true)
        }
    }
}

fn unit_in(order: ByteOrder, first: u8, second: u8) -> u16
    ensures { result ≡ unit_in order first second }
{
    match order {
        ByteOrder::HighFirst => 256 * u16::from(first) + u16::from(second),
        ByteOrder::LowFirst => 256 * u16::from(second) + u16::from(first),
    }
}

/// Takes the units of bytes in place of others. Whether no byte is left.
fn take_units(units: &mut Vec<u16>, order: ByteOrder, bytes: &[u8]) -> Result<bool, AllocError>
    ensures { IfOk result (IsRead [] units.new.items (units_of order bytes.now)) }
{
    units.clear();
    let mut rest = bytes;
    while let [first, second, more @ ..] = rest {
        units.push(unit_in(order, *first, *second))?;
        rest = more;
    }
    Ok(rest.is_empty())
}

fn utf32_code(first: u8, second: u8, third: u8, fourth: u8) -> u32
    ensures { result ≡ utf32_code first second third fourth }
{
    16_777_216 * u32::from(first)
        + 65_536 * u32::from(second)
        + 256 * u32::from(third)
        + u32::from(fourth)
}

fn append_utf32(text: &mut String, bytes: &[u8]) -> Result<bool, AllocError>
    ensures { IfOk result (HasRead text.old text.new (utf32_text bytes.now)) }
{
    let mut rest = bytes;
    while let [first, second, third, fourth, more @ ..] = rest {
        match char::from_u32(utf32_code(*first, *second, *third, *fourth)) {
            None => return Ok(false),
            Some(read) => text.push(read)?,
        }
        rest = more;
    }
    Ok(rest.is_empty())
}

/// Appends the characters of bytes, by the code points that a table has at their places.
fn append_by(table: &[u16; 256], text: &mut String, bytes: &[u8]) -> Result<bool, AllocError>
    ensures { IfOk result (HasRead text.old text.new (text_by table.now bytes.now)) }
{
    for byte in bytes {
        match char::from_u32(u32::from(table[usize::from(*byte)])) {
            None => return Ok(false),
            Some(read) => text.push(read)?,
        }
    }
    Ok(true)
}
