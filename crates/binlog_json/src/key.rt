//! The keys of a row change.
ghost use Rattle.std.specs.Prelude.{◌≡◌, ◌<◌, Some, length, slice_get, IfOk, IfSome, OnOk};
ghost use Rattle.binlog_table.specs.Value.{view as cell_view};
ghost use Rattle.binlog_feed.specs.Changes.{view};
ghost use Rattle.binlog_json.specs.Keys.{HasTypes, is_text, key_text_as as text_of_key, key_text_of, value_as, value_in, value_in_either, TellsIfSome, TellsKey, either_text, given_text, image_key_text, is_one_of_keys};
ghost use Rattle.binlog_json.specs.Written.{text_if};
ghost use Rattle.binlog_json.specs.Growth.{Gains, Prints};
ghost use Rattle.binlog_json.specs.NamedValues.{as_key};
ghost use Rattle.binlog_json.specs.declared.style.Style.TheVariants.{Plain};

use crate::append::append_comma;
use crate::full_image::type_at;
use crate::full_values::append_full_value;
use crate::key_finder::KeyFinder;
use crate::lines::Line;
use crate::room::Room;
use crate::style::Style;
use crate::values::append_value;
use binlog_feed::Change;
use binlog_table::{Cell, RowView, Side};
use binlog_types::ColumnType;
use std::alloc::{AllocError, Global};

/// The key of the row as it was, or as it is then: the values of the primary key's columns as a compact JSON array, in key order.
/// What the new row of an update lacks of the key is taken from the old row.
///
/// There is none where the change has no row on that side, where a column of the key is missing still, and where the table has no
/// primary key. The only error is a refused growth.
pub fn key_text(
    alloc: Global,
    change: &Change<'_>,
    side: Side,
) -> Result<Option<String>, AllocError>
    ensures { IfOk result (λ text. given_text text ≡ key_text_of (view change.now) side) }
{
    key_text_as(alloc, Style::Plain, &[], change, side)
}

/// The key on a side of a change, with values in a style.
fn key_text_as(
    alloc: Global,
    style: Style,
    types: &[ColumnType],
    change: &Change<'_>,
    side: Side,
) -> Result<Option<String>, AllocError>
    requires { HasTypes style types.now (view change.now).table }
    ensures { IfOk result (λ text. given_text text ≡ text_of_key style (view change.now) side) }
{
    match side {
        Side::Before => match change.before() {
            None => Ok(None),
            Some(image) => image_key(alloc, style, types, &image, None),
        },
        Side::After => match change.after() {
            None => Ok(None),
            Some(image) => image_key(alloc, style, types, &image, change.before()),
        },
    }
}

/// The key of an image, with what it lacks from another image of the same table.
fn image_key(
    alloc: Global,
    style: Style,
    types: &[ColumnType],
    image: &RowView<'_>,
    other: Option<RowView<'_>>,
) -> Result<Option<String>, AllocError>
    requires types { HasTypes style types.now image.now.table }
    requires table { IfSome other (λ second. second.table ≡ image.now.table) }
    ensures { IfOk result (λ text. given_text text ≡ image_key_text style image.now other.entry) }
{
    let columns = image.key();
    if columns.is_empty() {
        return Ok(None);
    }
    let mut room = Room::new(alloc);
    let mut text = Line::new(alloc);
    text.push_str("[")?;
    let mut later = false;
    for column in columns {
        append_comma(&mut text, later)?;
        later = append_of_either(&mut text, &mut room, style, types, image, &other, *column)?;
        if !later {
            return Ok(None);
        }
    }
    text.push_str("]")?;
    Ok(Some(text.into_string()))
}

/// Appends the value of a column in an image, or else in another one. Whether one of them has the column.
fn append_of_either(
    out: &mut Line,
    room: &mut Room,
    style: Style,
    types: &[ColumnType],
    image: &RowView<'_>,
    other: &Option<RowView<'_>>,
    column: usize,
) -> Result<bool, AllocError>
    requires column { column < length image.now.table.columns }
    requires types { HasTypes style types.now image.now.table }
    requires table { IfSome other.now (λ second. second.table ≡ image.now.table) }
    ensures text { OnOk result (Gains out.old out.new (either_text style image.now other.now column)) }
    ensures has { IfOk result (TellsIfSome (value_in_either style image.now other.now column)) }
{
    if append_of(out, room, style, types, image, column)? {
        return Ok(true);
    }
    match other {
        None => Ok(false),
        Some(second) => append_of(out, room, style, types, second, column),
    }
}

/// Appends the value of a column, where the image has the column. Whether it has.
fn append_of(
    out: &mut Line,
    room: &mut Room,
    style: Style,
    types: &[ColumnType],
    image: &RowView<'_>,
    column: usize,
) -> Result<bool, AllocError>
    requires column { column < length image.now.table.columns }
    requires types { HasTypes style types.now image.now.table }
    ensures text { OnOk result (Gains out.old out.new (text_if (value_in style image.now column))) }
    ensures has { IfOk result (TellsIfSome (value_in style image.now column)) }
{
    match image.value(column) {
        Cell::Absent => Ok(false),
        cell => {
            append_value_as(out, room, style, types, image, column, &cell)?;
            Ok(true)
        }
    }
}

/// Appends the value of a column with this cell in a style: a full one by the column's type.
fn append_value_as(
    out: &mut Line,
    room: &mut Room,
    style: Style,
    types: &[ColumnType],
    image: &RowView<'_>,
    column: usize,
    cell: &Cell<'_>,
) -> Result<(), AllocError>
    requires column { column < length image.now.table.columns }
    requires types { HasTypes style types.now image.now.table }
    requires cell { slice_get image.now.cells column ≡ Some (cell_view cell.now) }
    ensures { OnOk result (Prints out.old out.new (value_as style image.now column)) }
{
    match style {
        Style::Plain => append_value(out, room, image, column, cell),
        Style::Full => {
            let column_type = type_at(types, column);
            append_full_key_value(out, room, image, column, &column_type, cell)
        }
    }
}

/// Appends the value of a column of this type with this cell as full keys have it: a FLOAT or a DOUBLE as bytes.
fn append_full_key_value(
    out: &mut Line,
    room: &mut Room,
    image: &RowView<'_>,
    column: usize,
    column_type: &ColumnType,
    cell: &Cell<'_>,
) -> Result<(), AllocError>
    requires { column < length image.now.table.columns }
    ensures { OnOk result (Prints out.old out.new (as_key image.now column column_type.now cell.now)) }
{
    match cell {
        Cell::Raw(_) => append_value(out, room, image, column, cell),
        Cell::Absent
        | Cell::Null
        | Cell::Int(_)
        | Cell::UInt(_)
        | Cell::Bits(_)
        | Cell::Enum(_)
        | Cell::Set(_)
        | Cell::Bytes(_)
        | Cell::Decimal(_)
        | Cell::Year(_)
        | Cell::Date(_)
        | Cell::DateTime(_)
        | Cell::Time(_)
        | Cell::Timestamp(_) => append_full_value(out, room, image, column, column_type, cell),
    }
}

/// Whether it is a change of this table, and the key is one of its keys. The key is compact JSON, as [`key_text`] gives it. The only
/// error is a refused growth; a change of another table takes no memory.
pub fn has_key(
    alloc: Global,
    change: &Change<'_>,
    schema: &str,
    table: &str,
    key: &str,
) -> Result<bool, AllocError>
    ensures { IfOk result (TellsKey Plain schema.now table.now key.now (view change.now)) }
{
    has_key_as(Style::Plain, alloc, change, schema, table, key)
}

/// Does what [`has_key`] does, with a key whose values are those of lines in this style.
pub fn has_key_as(
    style: Style,
    alloc: Global,
    change: &Change<'_>,
    schema: &str,
    table: &str,
    key: &str,
) -> Result<bool, AllocError>
    ensures { IfOk result (TellsKey style schema.now table.now key.now (view change.now)) }
{
    let mut finder = KeyFinder::new(alloc);
    finder.has_key_as(style, change, schema, table, key)
}

/// Whether the key is one of a change's keys.
pub(crate) fn is_among_keys(
    alloc: Global,
    style: Style,
    types: &[ColumnType],
    change: &Change<'_>,
    key: &str,
) -> Result<bool, AllocError>
    requires { HasTypes style types.now (view change.now).table }
    ensures { IfOk result (λ has. has ≡ is_one_of_keys style key.now (view change.now)) }
{
    if has_key_on(alloc, style, types, change, Side::Before, key)? {
        return Ok(true);
    }
    has_key_on(alloc, style, types, change, Side::After, key)
}

/// Whether the key on a side of a change is this one.
fn has_key_on(
    alloc: Global,
    style: Style,
    types: &[ColumnType],
    change: &Change<'_>,
    side: Side,
    key: &str,
) -> Result<bool, AllocError>
    requires { HasTypes style types.now (view change.now).table }
    ensures { IfOk result (λ has. has ≡ is_text key.now (text_of_key style (view change.now) side)) }
{
    let text = key_text_as(alloc, style, types, change, side)?;
    Ok(is_key(&text, key))
}

/// Whether a text is there and is the key.
fn is_key(text: &Option<String>, key: &str) -> bool
    ensures { result ≡ is_text key.now (given_text text.now) }
{
    match text {
        None => false,
        Some(text) => text.as_str() == key,
    }
}
