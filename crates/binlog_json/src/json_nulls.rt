//! The member of full lines that names the columns whose document is the JSON null. Their values are null there, as NULL is.
ghost use Rattle.std.specs.Prelude.{◌≡◌, ◌<◌, length, codes, false, Some, OnOk, IfOk};
ghost use Rattle.binlog_documents.specs.Containers.{document_at};
ghost use Rattle.binlog_table.specs.Value.{view as content};
ghost use Rattle.binlog_types.specs.ColumnTypes.{types_of};
ghost use Rattle.binlog_feed.specs.Changes.{view, after_of, before_of};
ghost use Rattle.binlog_json.specs.JsonNulls.{is_null, is_null_document, is_json_null, has_documents, json_nulls, null_columns, nulls_on};
ghost use Rattle.binlog_json.specs.FullWritten.{begun, json_null_text, names_text, null_name, stands_behind};
ghost use Rattle.binlog_json.specs.Growth.{Gains};

use crate::full_image::type_at;
use crate::full_table::FullTable;
use crate::full_values::is_json;
use crate::lines::Line;
use crate::room::Room;
use binlog_feed::Change;
use binlog_table::{Cell, PlacedRow, RowView};
use binlog_types::ColumnType;
use std::alloc::AllocError;

/// The type of a document that is null, true or false, and the value of the document null.
const LITERAL: u8 = 4;

const NULL: u8 = 0;

/// Appends the member `json_null`, where a column of one of the images has this value.
#[inline(always)]
pub(crate) fn append_json_nulls(
    line: &mut Line,
    room: &mut Room,
    table: &FullTable,
    change: &Change<'_>,
) -> Result<(), AllocError>
    requires types { table.now.types.items ≡ types_of (view change.now).table.sections }
    requires documents { table.now.has_json ≡ has_documents table.now.types.items }
    ensures { OnOk result (Gains line.old line.new (json_null_text (json_nulls (view change.now)))) }
{
    if !table.has_json {
        return Ok(());
    }
    append_names(line, room, table, change)
}

/// Appends the member with the names, of a table that has columns of JSON.
#[inline(never)]
fn append_names(
    line: &mut Line,
    room: &mut Room,
    table: &FullTable,
    change: &Change<'_>,
) -> Result<(), AllocError>
    requires { table.now.types.items ≡ types_of (view change.now).table.sections }
    ensures { OnOk result (Gains line.old line.new (json_null_text (json_nulls (view change.now)))) }
{
    let later = append_names_after(line, room, table, change)?;
    let later = append_names_before(line, room, table, change, later)?;
    if later {
        line.push(b']')?;
    }
    Ok(())
}

/// Appends the names of the new row. Whether a name stands there then.
fn append_names_after(
    line: &mut Line,
    room: &mut Room,
    table: &FullTable,
    change: &Change<'_>,
) -> Result<bool, AllocError>
    requires { table.now.types.items ≡ types_of (view change.now).table.sections }
    ensures text { OnOk result (Gains line.old line.new (names_text false (nulls_on (codes "after.") (after_of (view change.now))))) }
    ensures later { IfOk result (λ now. now ≡ stands_behind false (nulls_on (codes "after.") (after_of (view change.now)))) }
{
    let Some(image) = change.after() else {
        return Ok(false);
    };
    let Some(row) = change.placed_after() else {
        unreachable!()
    };
    append_names_of(
        line,
        room,
        table.types.as_slice(),
        "after.",
        &image,
        &row,
        false,
    )
}

/// Appends the names of the old row behind those of the new one, if some stand there. Whether a name stands there then.
fn append_names_before(
    line: &mut Line,
    room: &mut Room,
    table: &FullTable,
    change: &Change<'_>,
    later: bool,
) -> Result<bool, AllocError>
    requires { table.now.types.items ≡ types_of (view change.now).table.sections }
    ensures text { OnOk result (Gains line.old line.new (names_text later (nulls_on (codes "before.") (before_of (view change.now))))) }
    ensures later { IfOk result (λ now. now ≡ stands_behind later (nulls_on (codes "before.") (before_of (view change.now)))) }
{
    let Some(image) = change.before() else {
        return Ok(later);
    };
    let Some(row) = change.placed_before() else {
        unreachable!()
    };
    append_names_of(
        line,
        room,
        table.types.as_slice(),
        "before.",
        &image,
        &row,
        later,
    )
}

/// Appends the names of an image's columns that have the JSON null, in the order of the names. Whether a name stands there then.
fn append_names_of(
    line: &mut Line,
    room: &mut Room,
    types: &[ColumnType],
    side: &str,
    image: &RowView<'_>,
    row: &PlacedRow<'_>,
    later: bool,
) -> Result<bool, AllocError>
    requires row { row.now ≡ image.now }
    requires types { types.now ≡ types_of image.now.table.sections }
    ensures text { OnOk result (Gains line.old line.new (names_text later (nulls_on side.now (Some image.now)))) }
    ensures later { IfOk result (λ now. now ≡ stands_behind later (nulls_on side.now (Some image.now))) }
{
    let mut stands = later;
    for column in image.name_order() {
        stands = append_name(line, room, types, side, image, row, *column, stands)?;
    }
    Ok(stands)
}

/// Appends the name of a column, if its value is the JSON null. Whether a name stands there then.
fn append_name(
    line: &mut Line,
    room: &mut Room,
    types: &[ColumnType],
    side: &str,
    image: &RowView<'_>,
    row: &PlacedRow<'_>,
    column: usize,
    later: bool,
) -> Result<bool, AllocError>
    requires row { row.now ≡ image.now }
    requires types { types.now ≡ types_of image.now.table.sections }
    ensures text { OnOk result (Gains line.old line.new (names_text later (null_name side.now image.now column))) }
    ensures later { IfOk result (λ now. now ≡ stands_behind later (null_name side.now image.now column)) }
{
    if column >= image.column_count() || !is_json_null(types, row, column) {
        return Ok(later);
    }
    line.push_str(begin(later))?;
    room.text.clear();
    room.text.push_str(side)?;
    room.text.push_str(image.column_name(column))?;
    room.quoter.append(line, room.text.as_str())?;
    Ok(true)
}

/// What stands in front of a name: the first one begins the member.
fn begin(later: bool) -> &'static str
    ensures { result.now ≡ begun later }
{
    if later { "," } else { ",\"json_null\":[" }
}

/// Whether the value of a column is the JSON null.
fn is_json_null(types: &[ColumnType], row: &PlacedRow<'_>, column: usize) -> bool
    requires column { column < length row.now.table.columns }
    requires types { types.now ≡ types_of row.now.table.sections }
    ensures { result ≡ is_json_null row.now column }
{
    is_json(type_at(types, column).code) && is_null_document(&row.cell(column))
}

/// Whether what a column has are the bytes of the document null.
fn is_null_document(cell: &Cell<'_>) -> bool
    ensures { result ≡ is_null_document (content cell.now) }
{
    match cell {
        Cell::Raw(bytes) => is_null(bytes),
        Cell::Absent
        | Cell::Null
        | Cell::Int(_)
        | Cell::UInt(_)
        | Cell::Decimal(_)
        | Cell::Year(_)
        | Cell::Date(_)
        | Cell::DateTime(_)
        | Cell::Time(_)
        | Cell::Timestamp(_)
        | Cell::Bits(_)
        | Cell::Enum(_)
        | Cell::Set(_)
        | Cell::Bytes(_) => false,
    }
}

/// Whether bytes are the document null. What stands behind its value is ignored, and no bytes at all are this document, too.
fn is_null(bytes: &[u8]) -> bool
    ensures { result ≡ is_null (document_at bytes.now) }
{
    let [kind, code, ..] = bytes else {
        return bytes.is_empty();
    };
    *kind == LITERAL && *code == NULL
}
