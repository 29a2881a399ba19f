//! A line for each row change of a list of files that has a key.
ghost use Rattle.std.specs.Prelude.{IfErr};
ghost use Rattle.binlog_frame.specs.Sources.{Keeps};
ghost use Rattle.binlog_json.specs.declared.style.Style.TheVariants.{Plain};
ghost use Rattle.binlogfeed.specs.Faults.{IsNamed};
ghost use Rattle.binlogfeed.specs.RunAnswers.{AnswersKey};
ghost use Rattle.binlogfeed.specs.Runs.{ReadsFailed};

use crate::fault::RunFault;
use crate::feed_lines::{Wanted, write_feed};
use binlog_feed::Start;
use binlog_frame::Logs;
use binlog_json::Style;
use binlog_select::Filter;
use std::alloc::Global;
use std::io::Write;

/// Writes a line for each row change of this table that has this key, of the committed transactions that are whole before the first
/// fault of the files: the line that [`run`](crate::run::run) writes for it. Then it flushes, and answers the number of lines, which
/// stays at 2^64 - 1, or the fault. Where the window is too small for an event, it is replaced by a larger one.
///
/// The key is a compact JSON array, of the values of the primary key's columns in key order. A write or a flush that fails ends the
/// run, and is answered in place of a fault of the files. The logs come back in every case.
pub fn run_history<L: Logs, W: Write>(
    alloc: Global,
    logs: L,
    schema: &str,
    table: &str,
    key: &str,
    window: Vec<u8>,
    out: &mut W,
) -> (L, Result<u64, RunFault>)
    ensures answers { AnswersKey L.Logs W.Write Plain schema.now table.now key.now logs out.old out.new result }

    // Over any source.
    ensures source { Keeps L.Logs logs result.0 }
    ensures named { IfErr result.1 (IsNamed (L.names result.0)) }
    ensures failed { IfErr result.1 (ReadsFailed (L.failures logs) (L.failures result.0)) }
{
    run_history_as(Style::Plain, alloc, logs, schema, table, key, window, out)
}

/// Does what [`run_history`] does, with lines in a style, and with a key whose values are those of such lines: in the plain one they are
/// the same lines.
pub fn run_history_as<L: Logs, W: Write>(
    style: Style,
    alloc: Global,
    logs: L,
    schema: &str,
    table: &str,
    key: &str,
    window: Vec<u8>,
    out: &mut W,
) -> (L, Result<u64, RunFault>)
    ensures answers { AnswersKey L.Logs W.Write style schema.now table.now key.now logs out.old out.new result }

    // Over any source.
    ensures source { Keeps L.Logs logs result.0 }
    ensures named { IfErr result.1 (IsNamed (L.names result.0)) }
    ensures failed { IfErr result.1 (ReadsFailed (L.failures logs) (L.failures result.0)) }
{
    let wanted = Wanted::OfKey { schema, table, key };
    write_feed(
        alloc,
        logs,
        Filter::new(),
        Start::Beginning,
        &wanted,
        style,
        window,
        out,
    )
}
