//! Images of full lines, written in the order of the columns' names.
ghost use Rattle.std.specs.Prelude.{◌≡◌, slice_index_or, OnOk, IfOk};
ghost use Rattle.binlog_types.specs.ColumnTypes.{types_of};
ghost use Rattle.binlog_json.specs.FullValues.{unknown_type};
ghost use Rattle.binlog_json.specs.Written.{TellsLater};
ghost use Rattle.binlog_json.specs.FullLine.{full_image};
ghost use Rattle.binlog_json.specs.FullWritten.{full_column_text};
ghost use Rattle.binlog_json.specs.Growth.{Gains, Prints};
ghost use Rattle.binlog_json.specs.KeptLabels.{HasLabels};

use crate::full_values::append_full_value;
use crate::labels::Labels;
use crate::lines::Line;
use crate::room::Room;
use binlog_table::{Cell, PlacedRow, RowView};
use binlog_types::ColumnType;
use std::alloc::AllocError;

/// Appends an image as an object, with values by these types of its table's columns.
pub(crate) fn append_full_image(
    out: &mut Line,
    room: &mut Room,
    labels: &Labels,
    types: &[ColumnType],
    image: &RowView<'_>,
    row: &PlacedRow<'_>,
) -> Result<(), AllocError>
    requires row { row.now ≡ image.now }
    requires labels { HasLabels labels.now image.now.table.names }
    requires types { types.now ≡ types_of image.now.table.sections }
    ensures { OnOk result (Prints out.old out.new (full_image (Some image.now))) }
{
    out.push_str("{")?;
    let mut later = false;
    for column in image.name_order() {
        later = append_full_column(out, room, labels, types, image, row, *column, later)?;
    }
    out.push_str("}")?;
    Ok(())
}

/// The type of a column, or an unknown one.
pub(crate) fn type_at(types: &[ColumnType], column: usize) -> ColumnType
    ensures { result ≡ slice_index_or types.now column unknown_type }
{
    match types.get(column) {
        Some(column_type) => *column_type,
        None => ColumnType {
            code: 0,
            size: 0,
            scale: 0,
            unsigned: false,
            charset: None,
        },
    }
}

/// Appends the member of a column, as `append_column` does, with its value by the column's type.
fn append_full_column(
    out: &mut Line,
    room: &mut Room,
    labels: &Labels,
    types: &[ColumnType],
    image: &RowView<'_>,
    row: &PlacedRow<'_>,
    column: usize,
    later: bool,
) -> Result<bool, AllocError>
    requires row { row.now ≡ image.now }
    requires labels { HasLabels labels.now image.now.table.names }
    requires types { types.now ≡ types_of image.now.table.sections }
    ensures text { OnOk result (Gains out.old out.new (full_column_text later image.now column)) }
    ensures later { IfOk result (TellsLater later image.now column) }
{
    if column >= image.column_count() {
        return Ok(later);
    }
    let cell = row.cell(column);
    match &cell {
        Cell::Absent => Ok(later),
        present => {
            labels.append_label(out, column, later)?;
            let column_type = type_at(types, column);
            append_full_value(out, room, image, column, &column_type, present)?;
            Ok(true)
        }
    }
}
