//! Values of columns as JSON, at the end of a text.
ghost use Rattle.std.specs.Prelude.{◌<◌, ◌++◌, ◌∷◌, [], codes, length, OnOk};
ghost use Rattle.json.specs.Print.{quoted};
ghost use Rattle.base64.specs.Engines.{standard};
ghost use Rattle.base64.specs.GeneralPurpose.{encode_of};
ghost use Rattle.binlog_json.specs.Values.{bytes_data, encoded_data, enum_data, set_data};
ghost use Rattle.binlog_json.specs.FullValues.{in_base64};
ghost use Rattle.binlog_json.specs.Growth.{Gains, Prints, Quotes};
ghost use Rattle.binlog_json.specs.NamedValues.{cell_data, known_names};

use crate::append::{Quoter, append_integer, append_number, append_plain};
use crate::lines::Line;
use crate::names::{append_names, enum_name, is_named};
use crate::room::Room;
use crate::texts::{
    append_date, append_date_time, append_decimal, append_time, append_timestamp, append_year,
};
use base64::engine::general_purpose::STANDARD;
use binlog_documents::is_plain;
use binlog_table::{Cell, RowView};
use std::alloc::AllocError;

/// The value of a column with this cell.
#[inline(always)]
pub(crate) fn append_value(
    out: &mut Line,
    room: &mut Room,
    image: &RowView<'_>,
    column: usize,
    cell: &Cell<'_>,
) -> Result<(), AllocError>
    requires { column < length image.now.table.columns }
    ensures { OnOk result (Prints out.old out.new (cell_data image.now column cell.now)) }
{
    match cell {
        Cell::Absent | Cell::Null => out.push_str("null"),
        Cell::Int(number) => append_integer(out, *number),
        Cell::UInt(number) | Cell::Bits(number) => append_number(out, *number),
        Cell::Enum(number) => append_enum(out, room, image, column, *number),
        Cell::Set(number) => append_set(out, room, image, column, *number),
        Cell::Bytes(bytes) => append_bytes(out, room, bytes),
        Cell::Raw(bytes) => append_raw(out, &mut room.quoter, &mut room.text, bytes),
        Cell::Decimal(decimal) => append_decimal(out, *decimal),
        Cell::Year(year) => append_year(out, *year),
        Cell::Date(date) => append_date(out, *date),
        Cell::DateTime(time) => append_date_time(out, *time),
        Cell::Time(time) => append_time(out, *time),
        Cell::Timestamp(time) => append_timestamp(out, *time),
    }
}

#[inline(never)]
fn append_enum(
    out: &mut Line,
    room: &mut Room,
    image: &RowView<'_>,
    column: usize,
    number: u16,
) -> Result<(), AllocError>
    requires { column < length image.now.table.columns }
    ensures { OnOk result (Prints out.old out.new (enum_data (known_names image.now column) number)) }
{
    match enum_name(image, column, number) {
        None => append_number(out, u64::from(number)),
        Some(name) => append_bytes(out, room, name),
    }
}

#[inline(never)]
fn append_set(
    out: &mut Line,
    room: &mut Room,
    image: &RowView<'_>,
    column: usize,
    number: u64,
) -> Result<(), AllocError>
    requires { column < length image.now.table.columns }
    ensures { OnOk result (Prints out.old out.new (set_data (known_names image.now column) number)) }
{
    if !is_named(image, column, number) {
        return append_number(out, number);
    }
    room.names.clear();
    append_names(&mut room.names, image, column, number)?;
    append_text(out, &mut room.quoter, &mut room.text, &room.names)
}

#[inline(always)]
fn append_bytes(out: &mut Line, room: &mut Room, bytes: &[u8]) -> Result<(), AllocError>
    ensures { OnOk result (Prints out.old out.new (bytes_data bytes.now)) }
{
    append_text(out, &mut room.quoter, &mut room.text, bytes)
}

/// A string where the bytes are UTF-8, else an object with the bytes in base64.
#[inline(always)]
pub(crate) fn append_text(
    out: &mut Line,
    quoter: &mut Quoter,
    room: &mut String,
    bytes: &[u8],
) -> Result<(), AllocError>
    ensures { OnOk result (Prints out.old out.new (bytes_data bytes.now)) }
{
    if is_plain::<0x80>(bytes) {
        return append_plain(out, bytes);
    }
    append_any_text(out, quoter, room, bytes)
}

/// The same, whatever the bytes are.
#[inline(never)]
fn append_any_text(
    out: &mut Line,
    quoter: &mut Quoter,
    room: &mut String,
    bytes: &[u8],
) -> Result<(), AllocError>
    ensures { OnOk result (Prints out.old out.new (bytes_data bytes.now)) }
{
    match str::from_utf8(bytes) {
        Ok(text) => quoter.append(out, text),
        Err(_) => append_encoded(out, quoter, room, bytes),
    }
}

/// An object whose member says that the bytes are as they are stored.
#[inline(never)]
pub(crate) fn append_raw(
    out: &mut Line,
    quoter: &mut Quoter,
    room: &mut String,
    bytes: &[u8],
) -> Result<(), AllocError>
    ensures { OnOk result (Prints out.old out.new (encoded_data (codes "raw") bytes.now)) }
{
    out.push_str("{\"raw\":")?;
    append_base64(out, quoter, room, bytes)?;
    out.push_str("}")
}

/// An object whose member says that the bytes are no text.
pub(crate) fn append_encoded(
    out: &mut Line,
    quoter: &mut Quoter,
    room: &mut String,
    bytes: &[u8],
) -> Result<(), AllocError>
    ensures { OnOk result (Prints out.old out.new (in_base64 bytes.now)) }
{
    out.push_str("{\"base64\":")?;
    append_base64(out, quoter, room, bytes)?;
    out.push_str("}")
}

/// The bytes in base64, as a string. That of few bytes is put together beside the line.
#[inline(never)]
pub(crate) fn append_base64(
    out: &mut Line,
    quoter: &mut Quoter,
    room: &mut String,
    bytes: &[u8],
) -> Result<(), AllocError>
    ensures { OnOk result (Quotes out.old out.new (encode_of standard bytes.now)) }
{
    let mut shown = [0u8; 64];
    match STANDARD.encode_slice(bytes, &mut shown) {
        Err(_) => append_long_base64(out, quoter, room, bytes),
        Ok(len) => match str::from_utf8(&shown[..len]) {
            Err(_) => append_long_base64(out, quoter, room, bytes),
            Ok(text) => quoter.append(out, text),
        },
    }
}

/// The bytes in base64, as a string, by way of a text of any length.
fn append_long_base64(
    out: &mut Line,
    quoter: &mut Quoter,
    room: &mut String,
    bytes: &[u8],
) -> Result<(), AllocError>
    ensures { OnOk result (Quotes out.old out.new (encode_of standard bytes.now)) }
{
    room.clear();
    STANDARD.encode_string(bytes, room)?;
    quoter.append(out, room.as_str())
}

/// The name of a member, with its colon.
pub(crate) fn append_member_name(
    out: &mut Line,
    quoter: &mut Quoter,
    name: &str,
) -> Result<(), AllocError>
    ensures { OnOk result (Gains out.old out.new (quoted name.now ++ 58 ∷ [])) }
{
    quoter.append(out, name)?;
    out.push(b':')
}
