//! The texts of columns' types, as a server's own statements name them.
ghost use Rattle.std.specs.Prelude.{◌≡◌, ◌++◌, ◌∷◌, [], OnOk};
ghost use Rattle.std.specs.Option.{option_or};
ghost use Rattle.binlog_types.specs.ColumnTypes.{is_named};
ghost use Rattle.binlog_json.specs.TypeTexts.{is_bytes, size_text, size_if_any, sign_of, lob_size, number_name, is_number, other_name, bytes_name, text_name, has_charset, charset_type, type_text};
ghost use Rattle.binlog_json.specs.Growth.{Gains};
ghost use Rattle.binlog_table.specs.TypeCodes as type_code;

use crate::append::append_number;
use crate::full_values::is_binary;
use crate::lines::Line;
use binlog_table::type_code;
use binlog_types::{ColumnType, charset_name, encoding_of};
use std::alloc::AllocError;

fn append_size(out: &mut Line, size: u16) -> Result<(), AllocError>
    ensures { OnOk result (Gains out.old out.new (size_text size)) }
{
    out.push_str("(")?;
    append_number(out, u64::from(size))?;
    out.push_str(")")
}

fn append_size_if_any(out: &mut Line, size: u16) -> Result<(), AllocError>
    ensures { OnOk result (Gains out.old out.new (size_if_any size)) }
{
    if size == 0 {
        return Ok(());
    }
    append_size(out, size)
}

fn sign_of(unsigned: bool) -> &'static str
    ensures { result.now ≡ sign_of unsigned }
{
    if unsigned { " unsigned" } else { "" }
}

fn lob_size(size: u16) -> &'static str
    ensures { result.now ≡ lob_size size }
{
    match size {
        1 => "tiny",
        3 => "medium",
        4 => "long",
        _ => "",
    }
}

fn number_name(code: u8) -> &'static str
    ensures { result.now ≡ number_name code }
{
    match code {
        type_code::TINY => "tinyint",
        type_code::SHORT => "smallint",
        type_code::INT24 => "mediumint",
        type_code::LONG => "int",
        type_code::LONGLONG => "bigint",
        type_code::FLOAT => "float",
        _ => "double",
    }
}

fn is_number(code: u8) -> bool
    ensures { result ≡ is_number code }
{
    matches!(
        code,
        type_code::TINY
            | type_code::SHORT
            | type_code::INT24
            | type_code::LONG
            | type_code::LONGLONG
            | type_code::FLOAT
            | type_code::DOUBLE
    )
}

fn has_charset(code: u8) -> bool
    ensures { result ≡ has_charset code }
{
    matches!(
        code,
        type_code::BLOB
            | type_code::STRING
            | type_code::ENUM
            | type_code::SET
            | type_code::VARCHAR
            | type_code::VAR_STRING
    )
}

fn append_sized(out: &mut Line, name: &str, size: u16) -> Result<(), AllocError>
    ensures { OnOk result (Gains out.old out.new (name.now ++ size_text size)) }
{
    out.push_str(name)?;
    append_size(out, size)
}

fn append_sized_if_any(out: &mut Line, name: &str, size: u16) -> Result<(), AllocError>
    ensures { OnOk result (Gains out.old out.new (name.now ++ size_if_any size)) }
{
    out.push_str(name)?;
    append_size_if_any(out, size)
}

fn append_other(out: &mut Line, column_type: &ColumnType) -> Result<(), AllocError>
    ensures { OnOk result (Gains out.old out.new (other_name column_type.now)) }
{
    let size = column_type.size;
    match column_type.code {
        type_code::DATE => out.push_str("date"),
        type_code::YEAR => out.push_str("year"),
        type_code::JSON => out.push_str("json"),
        type_code::GEOMETRY => out.push_str("geometry"),
        type_code::BIT => append_sized(out, "bit", size),
        type_code::TIMESTAMP2 => append_sized_if_any(out, "timestamp", size),
        type_code::DATETIME2 => append_sized_if_any(out, "datetime", size),
        type_code::TIME2 => append_sized_if_any(out, "time", size),
        type_code::VECTOR => append_sized_if_any(out, "vector", size),
        _ => out.push_str("unknown"),
    }
}

fn append_two(out: &mut Line, first: &str, second: &str) -> Result<(), AllocError>
    ensures { OnOk result (Gains out.old out.new (first.now ++ second.now)) }
{
    out.push_str(first)?;
    out.push_str(second)
}

fn append_bytes_name(out: &mut Line, column_type: &ColumnType) -> Result<(), AllocError>
    ensures { OnOk result (Gains out.old out.new (bytes_name column_type.now)) }
{
    match column_type.code {
        type_code::BLOB => append_two(out, lob_size(column_type.size), "blob"),
        type_code::STRING => append_sized(out, "binary", column_type.size),
        _ => append_sized(out, "varbinary", column_type.size),
    }
}

fn append_text_name(out: &mut Line, column_type: &ColumnType) -> Result<(), AllocError>
    ensures { OnOk result (Gains out.old out.new (text_name column_type.now)) }
{
    match column_type.code {
        type_code::BLOB => append_two(out, lob_size(column_type.size), "text"),
        type_code::STRING => out.push_str("char"),
        type_code::ENUM => out.push_str("enum"),
        type_code::SET => out.push_str("set"),
        _ => out.push_str("varchar"),
    }
}

/// Whether a column's type is named as one of bytes.
fn is_bytes(column_type: &ColumnType) -> bool
    ensures { result ≡ is_bytes column_type.now }
{
    match column_type.charset {
        None => false,
        Some(charset) => is_binary(encoding_of(charset)) && !is_named(column_type.code),
    }
}

fn is_named(code: u8) -> bool
    ensures { result ≡ is_named code }
{
    matches!(code, type_code::ENUM | type_code::SET)
}

fn append_charset_type(out: &mut Line, column_type: &ColumnType) -> Result<(), AllocError>
    ensures { OnOk result (Gains out.old out.new (charset_type column_type.now)) }
{
    if is_bytes(column_type) {
        return append_bytes_name(out, column_type);
    }
    append_text_name(out, column_type)?;
    match column_type.charset {
        None => Ok(()),
        Some(charset) => append_two(out, " ", charset_name(charset)),
    }
}

fn append_decimal_type(out: &mut Line, column_type: &ColumnType) -> Result<(), AllocError>
    requires { column_type.now.code ≡ type_code.newdecimal }
    ensures { OnOk result (Gains out.old out.new (type_text column_type.now)) }
{
    out.push_str("decimal(")?;
    append_number(out, u64::from(column_type.size))?;
    out.push_str(",")?;
    append_number(out, u64::from(column_type.scale))?;
    append_two(out, ")", sign_of(column_type.unsigned))
}

/// The text of a type.
pub(crate) fn append_type(out: &mut Line, column_type: &ColumnType) -> Result<(), AllocError>
    ensures { OnOk result (Gains out.old out.new (type_text column_type.now)) }
{
    let code = column_type.code;
    if is_number(code) {
        return append_two(out, number_name(code), sign_of(column_type.unsigned));
    }
    if code == type_code::NEWDECIMAL {
        return append_decimal_type(out, column_type);
    }
    if has_charset(code) {
        return append_charset_type(out, column_type);
    }
    append_other(out, column_type)
}
