//! The line of a change that is a statement.
ghost use Rattle.std.specs.Prelude.{◌≡◌, ◌∷◌, OnOk};
ghost use Rattle.binlog_feed.specs.Changes.{view};
ghost use Rattle.binlog_json.specs.Growth.{Gains, Prints};
ghost use Rattle.binlog_json.specs.Line.{stated_data, statement_data};
ghost use Rattle.binlog_json.specs.Written.{end_part, gtid_part, place_of_change, stated_by, statements_part};
ghost use Rattle.binlog_json.specs.LineBytes.{line_bytes};

use crate::append::{append_comma, append_number};
use crate::event_text::EventText;
use crate::lines::Line;
use crate::room::Room;
use crate::values::append_text;
use crate::writer::kind_member;
use binlog_feed::{Change, Statement};
use std::alloc::AllocError;

/// Appends the line of a change that is a statement, with what is kept of its event. It is the same in each style.
#[inline(never)]
pub(crate) fn append_stated(
    line: &mut Line,
    room: &mut Room,
    event: &EventText,
    change: &Change<'_>,
) -> Result<(), AllocError>
    requires front { line_bytes event.now.front ≡ gtid_part (view change.now).gtid }
    requires place { line_bytes event.now.place ≡ place_of_change (view change.now) }
    requires end { line_bytes event.now.end ≡ 34 ∷ end_part (view change.now).file }
    ensures { OnOk result (Prints line.old line.new (stated_data (view change.now))) }
{
    line.push_str("{")?;
    line.push_str(event.first_front())?;
    line.push_str(kind_member(change.kind()))?;
    append_statements(line, room, change)?;
    line.push_str(event.place())?;
    append_number(line, change.token().count)?;
    line.push_str(event.end())
}

/// The member with the statements of a change, with the comma before it.
fn append_statements(
    line: &mut Line,
    room: &mut Room,
    change: &Change<'_>,
) -> Result<(), AllocError>
    ensures { OnOk result (Gains line.old line.new (statements_part (view change.now).statements)) }
{
    line.push_str(",\"statements\":[")?;
    let mut later = false;
    for number in 0..change.statement_count() {
        let Some(statement) = change.statement(number) else {
            unreachable!()
        };
        append_comma(line, later)?;
        append_statement(line, room, &statement)?;
        later = true;
    }
    line.push_str("]")
}

/// A statement as an object.
fn append_statement(
    line: &mut Line,
    room: &mut Room,
    statement: &Statement<'_>,
) -> Result<(), AllocError>
    ensures { OnOk result (Prints line.old line.new (statement_data (stated_by statement.now))) }
{
    line.push_str("{\"schema\":")?;
    append_text(line, &mut room.quoter, &mut room.text, statement.schema)?;
    line.push_str(",\"text\":")?;
    append_text(line, &mut room.quoter, &mut room.text, statement.text)?;
    line.push_str(",\"timestamp\":")?;
    append_number(line, u64::from(statement.timestamp))?;
    line.push_str("}")
}
