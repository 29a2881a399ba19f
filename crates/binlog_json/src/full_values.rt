//! Values of columns as full lines have them: by the types that the server declared.
ghost use Rattle.std.specs.Prelude.{◌≡◌, ◌<◌, ◌≤◌, length, replicate, ◌-◌, ◌^◌, [], OnOk, IfOk, ℤ};
ghost use Rattle.std.specs.Str.{IsUtf8};
ghost use Rattle.json.specs.Print.{quoted};
ghost use Rattle.binlog_types.specs.Charsets.{encoding_of};
ghost use Rattle.binlog_json.specs.FullValues.{greatest_of, as_unsigned, int_data, uint_data, in_charset, is_binary, whole_bytes, text_data, is_float, is_json, is_vector, raw_text, raw_data, data_in, in_base64};
ghost use Rattle.binlog_json.specs.Growth.{Gathers, Prints};
ghost use Rattle.binlog_json.specs.Reading.{IsRead};
ghost use Rattle.binlog_json.specs.NamedValues.{full_enum, full_set, in_full};

use crate::append::{Quoter, append_integer, append_number, append_plain};
use crate::full_sets::append_members;
use crate::lines::Line;
use crate::names::{enum_name, is_named, members_of};
use crate::room::Room;
use crate::values::{append_base64, append_encoded, append_raw, append_value};
use crate::vectors::append_vector;
use binlog_documents::{DocumentWriter, is_plain};
use binlog_table::{Cell, RowView, type_code};
use binlog_types::{Charset, ColumnType, Encoding, charset_name, encoding_of};
use float_text::push_stored;
use std::alloc::AllocError;

/// The value of a column of this type with this cell.
pub(crate) fn append_full_value(
    out: &mut Line,
    room: &mut Room,
    image: &RowView<'_>,
    column: usize,
    column_type: &ColumnType,
    cell: &Cell<'_>,
) -> Result<(), AllocError>
    requires { column < length image.now.table.columns }
    ensures { OnOk result (Prints out.old out.new (in_full image.now column column_type.now cell.now)) }
{
    match cell {
        Cell::Int(number) => append_int(out, column_type, *number),
        Cell::UInt(number) => append_uint(out, column_type, *number),
        Cell::Bytes(bytes) => append_column_text(out, room, column_type, bytes),
        Cell::Enum(number) => append_full_enum(out, room, image, column, column_type, *number),
        Cell::Set(number) => append_full_set(out, room, image, column, column_type, *number),
        Cell::Raw(bytes) => append_full_raw(out, room, column_type, bytes),
        Cell::Absent
        | Cell::Null
        | Cell::Bits(_)
        | Cell::Decimal(_)
        | Cell::Year(_)
        | Cell::Date(_)
        | Cell::DateTime(_)
        | Cell::Time(_)
        | Cell::Timestamp(_) => append_value(out, room, image, column, cell),
    }
}

/// The greatest number of an integer type's bytes.
fn greatest_of(code: u8) -> u64
    ensures value { result ≡ greatest_of code }
{
    match code {
        type_code::TINY => 255,
        type_code::SHORT => 65_535,
        type_code::INT24 => 16_777_215,
        type_code::LONG => 4_294_967_295,
        _ => u64::MAX,
    }
}

/// What the bytes of a signed number say without a sign.
fn as_unsigned(greatest: u64, number: i64) -> u64
    ensures { result ≡ as_unsigned greatest number }
{
    if number >= 0 {
        number.unsigned_abs()
    } else {
        greatest.saturating_sub(number.unsigned_abs() - 1)
    }
}

/// A number that was read as signed.
fn append_int(out: &mut Line, column_type: &ColumnType, number: i64) -> Result<(), AllocError>
    ensures { OnOk result (Prints out.old out.new (int_data column_type.now number)) }
{
    if column_type.unsigned {
        append_number(out, as_unsigned(greatest_of(column_type.code), number))
    } else {
        append_integer(out, number)
    }
}

/// A number that was read as unsigned.
fn append_uint(out: &mut Line, column_type: &ColumnType, number: u64) -> Result<(), AllocError>
    ensures { OnOk result (Prints out.old out.new (uint_data column_type.now number)) }
{
    if column_type.unsigned {
        return append_number(out, number);
    }
    let greatest = greatest_of(column_type.code);
    if number <= greatest / 2 {
        return append_number(out, number);
    }
    out.push(b'-')?;
    append_number(out, greatest.saturating_sub(number) + 1)
}

pub(crate) fn is_binary(encoding: Encoding) -> bool
    ensures { result ≡ is_binary encoding }
{
    match encoding {
        Encoding::Binary => true,
        Encoding::Utf8
        | Encoding::Utf16
        | Encoding::Utf16le
        | Encoding::Utf32
        | Encoding::ByTable(_) => false,
    }
}

/// A text by the character set of its column.
fn append_column_text(
    out: &mut Line,
    room: &mut Room,
    column_type: &ColumnType,
    bytes: &[u8],
) -> Result<(), AllocError>
    ensures { OnOk result (Prints out.old out.new (text_data column_type.now bytes.now)) }
{
    let Some(charset) = column_type.charset else {
        return append_encoded(out, &mut room.quoter, &mut room.text, bytes);
    };
    if is_binary(encoding_of(charset)) {
        return append_whole(out, room, column_type, bytes);
    }
    append_text_in(out, room, charset, bytes)
}

/// A text in a character set, or its bytes.
fn append_text_in(
    out: &mut Line,
    room: &mut Room,
    charset: Charset,
    bytes: &[u8],
) -> Result<(), AllocError>
    ensures { OnOk result (Prints out.old out.new (data_in (encoding_of charset) charset bytes.now)) }
{
    match encoding_of(charset) {
        Encoding::Utf8 => append_utf8_text(out, room, charset, bytes),
        encoding => append_decoded(out, room, charset, encoding, bytes),
    }
}

/// A text in UTF-8, or its bytes.
#[inline(always)]
fn append_utf8_text(
    out: &mut Line,
    room: &mut Room,
    charset: Charset,
    bytes: &[u8],
) -> Result<(), AllocError>
    ensures { OnOk result (Prints out.old out.new (data_in Encoding.Utf8 charset bytes.now)) }
{
    if is_plain::<0x80>(bytes) {
        return append_plain(out, bytes);
    }
    match str::from_utf8(bytes) {
        Ok(text) => room.quoter.append(out, text),
        Err(_) => append_in_charset(out, &mut room.quoter, &mut room.text, charset, bytes),
    }
}

/// A text in another encoding, or its bytes.
#[inline(never)]
fn append_decoded(
    out: &mut Line,
    room: &mut Room,
    charset: Charset,
    encoding: Encoding,
    bytes: &[u8],
) -> Result<(), AllocError>
    ensures { OnOk result (Prints out.old out.new (data_in encoding charset bytes.now)) }
{
    room.text.clear();
    if room.decoder.append(&mut room.text, encoding, bytes)? {
        return room.quoter.append(out, room.text.as_str());
    }
    append_in_charset(out, &mut room.quoter, &mut room.text, charset, bytes)
}

#[inline(never)]
fn append_full_enum(
    out: &mut Line,
    room: &mut Room,
    image: &RowView<'_>,
    column: usize,
    column_type: &ColumnType,
    number: u16,
) -> Result<(), AllocError>
    requires { column < length image.now.table.columns }
    ensures { OnOk result (Prints out.old out.new (full_enum image.now column column_type.now number)) }
{
    match enum_name(image, column, number) {
        None => append_number(out, u64::from(number)),
        Some(name) => append_column_text(out, room, column_type, name),
    }
}

#[inline(never)]
fn append_full_set(
    out: &mut Line,
    room: &mut Room,
    image: &RowView<'_>,
    column: usize,
    column_type: &ColumnType,
    number: u64,
) -> Result<(), AllocError>
    requires { column < length image.now.table.columns }
    ensures { OnOk result (Prints out.old out.new (full_set image.now column column_type.now number)) }
{
    if !is_named(image, column, number) {
        return append_number(out, number);
    }
    let members = members_of(room.decoder.alloc, image, column, number)?;
    append_members(out, room, column_type.charset, &members)
}

/// Whether it is the number of FLOAT or DOUBLE.
fn is_float(code: u8) -> bool
    ensures { result ≡ is_float code }
{
    code == type_code::FLOAT || code == type_code::DOUBLE
}

/// Whether it is the number of JSON.
pub(crate) fn is_json(code: u8) -> bool
    ensures { result ≡ is_json code }
{
    code == type_code::JSON
}

/// Whether it is the number of VECTOR.
fn is_vector(code: u8) -> bool
    ensures { result ≡ is_vector code }
{
    code == type_code::VECTOR
}

/// Appends the number that a FLOAT or a DOUBLE is, the document that a value of JSON is, or the array that a VECTOR is. False where the
/// bytes are none, and for other types; then a part may have been appended.
#[inline(never)]
fn append_raw_text(
    out: &mut Vec<u8>,
    documents: &mut DocumentWriter,
    code: u8,
    bytes: &[u8],
) -> Result<bool, AllocError>
    ensures text { IfOk result (IsRead out.old.items out.new.items (raw_text code bytes.now)) }
    ensures utf8 { IfOk result (λ _. out.old.items ≡ [] → IsUtf8 out.new.items) }
{
    if is_float(code) {
        return push_stored(out, bytes);
    }
    if is_json(code) {
        return documents.append(out, bytes);
    }
    if is_vector(code) {
        return append_vector(out, bytes);
    }
    Ok(false)
}

/// The number, the document or the array that the bytes are. Where they are none, and for other types, the bytes.
#[inline(never)]
fn append_full_raw(
    out: &mut Line,
    room: &mut Room,
    column_type: &ColumnType,
    bytes: &[u8],
) -> Result<(), AllocError>
    ensures { OnOk result (Prints out.old out.new (raw_data column_type.now bytes.now)) }
{
    room.names.clear();
    if append_raw_text(
        &mut room.names,
        &mut room.documents,
        column_type.code,
        bytes,
    )? {
        return out.push_str(unsafe { str::from_utf8_unchecked(&room.names) });
    }
    append_raw(out, &mut room.quoter, &mut room.text, bytes)
}

/// Bytes that are no text, with the zeros that a BINARY has at its end.
fn append_whole(
    out: &mut Line,
    room: &mut Room,
    column_type: &ColumnType,
    bytes: &[u8],
) -> Result<(), AllocError>
    ensures { OnOk result (Prints out.old out.new (in_base64 (whole_bytes column_type.now bytes.now))) }
{
    if column_type.code != type_code::STRING {
        return append_encoded(out, &mut room.quoter, &mut room.text, bytes);
    }
    room.names.clear();
    room.names.extend_from_slice(bytes)?;
    append_zeros(
        &mut room.names,
        usize::from(column_type.size).saturating_sub(bytes.len()),
    )?;
    append_encoded(out, &mut room.quoter, &mut room.text, &room.names)
}

fn append_zeros(bytes: &mut Vec<u8>, count: usize) -> Result<(), AllocError>
    ensures { OnOk result (Gathers bytes.old bytes.new (replicate count 0)) }
{
    for _ in 0..count {
        bytes.push(0)?;
    }
    Ok(())
}

/// The bytes of a text, and the name of its character set.
pub(crate) fn append_in_charset(
    out: &mut Line,
    quoter: &mut Quoter,
    room: &mut String,
    charset: Charset,
    bytes: &[u8],
) -> Result<(), AllocError>
    ensures { OnOk result (Prints out.old out.new (in_charset charset bytes.now)) }
{
    out.push_str("{\"base64\":")?;
    append_base64(out, quoter, room, bytes)?;
    out.push_str(",\"charset\":")?;
    quoter.append(out, charset_name(charset))?;
    out.push_str("}")
}
