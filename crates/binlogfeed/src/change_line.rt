//! The line of a row change.
ghost use Rattle.std.specs.Prelude.{◌≡◌, ◌++◌, OnOk, OnErr};
ghost use Rattle.binlogfeed.specs.LineSteps.{line_for};

use binlog_feed::Change;
use binlog_json::{LineWriter, Style};
use std::alloc::AllocError;

/// Appends the line of a change in a style with its line feed: all of it, or nothing where a growth was refused.
pub(crate) fn change_line(
    style: Style,
    change: &Change<'_>,
    writer: &mut LineWriter,
    waiting: &mut Vec<u8>,
) -> Result<(), AllocError>
    ensures ok { OnOk result (waiting.new.items ≡ waiting.old.items ++ line_for style change.now) }
    ensures err { OnErr result (waiting.new.items ≡ waiting.old.items) }
{
    let before = waiting.len();
    writer.append_line_as(style, change, waiting)?;
    if waiting.push(b'\n').is_err() {
        waiting.truncate(before);
        return Err(AllocError);
    }
    Ok(())
}
