//! Images as objects, written in the order of the columns' names.
ghost use Rattle.std.specs.Prelude.{◌≡◌, OnOk, IfOk};
ghost use Rattle.binlog_json.specs.Json.{object};
ghost use Rattle.binlog_json.specs.Images.{image_members};
ghost use Rattle.binlog_json.specs.Written.{column_text, TellsLater};
ghost use Rattle.binlog_json.specs.Growth.{Gains, Prints};
ghost use Rattle.binlog_json.specs.KeptLabels.{HasLabels};

use crate::labels::Labels;
use crate::lines::Line;
use crate::room::Room;
use crate::values::append_value;
use binlog_table::{Cell, PlacedRow, RowView};
use std::alloc::AllocError;

/// Appends an image, whose cells lie where the row says, as an object: its present columns, in the order of their names.
pub(crate) fn append_image(
    out: &mut Line,
    room: &mut Room,
    labels: &Labels,
    image: &RowView<'_>,
    row: &PlacedRow<'_>,
) -> Result<(), AllocError>
    requires row { row.now ≡ image.now }
    requires labels { HasLabels labels.now image.now.table.names }
    ensures { OnOk result (Prints out.old out.new (object (image_members image.now))) }
{
    out.push_str("{")?;
    let mut later = false;
    for column in image.name_order() {
        later = append_column(out, room, labels, image, row, *column, later)?;
    }
    out.push_str("}")?;
    Ok(())
}

/// Appends the member of a column, behind a comma where a member stands before it, unless the column is absent. Whether a member
/// stands there then.
fn append_column(
    out: &mut Line,
    room: &mut Room,
    labels: &Labels,
    image: &RowView<'_>,
    row: &PlacedRow<'_>,
    column: usize,
    later: bool,
) -> Result<bool, AllocError>
    requires row { row.now ≡ image.now }
    requires labels { HasLabels labels.now image.now.table.names }
    ensures text { OnOk result (Gains out.old out.new (column_text later image.now column)) }
    ensures later { IfOk result (TellsLater later image.now column) }
{
    if column >= image.column_count() {
        return Ok(later);
    }
    let cell = row.cell(column);
    match &cell {
        Cell::Absent => Ok(later),
        present => {
            labels.append_label(out, column, later)?;
            append_value(out, room, image, column, present)?;
            Ok(true)
        }
    }
}
