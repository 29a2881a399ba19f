//! The texts of GTIDs.
ghost use Rattle.std.specs.Prelude.{◌≡◌, true, OnOk};
ghost use Rattle.uuid.specs.Text.{hyphenated_text, lower};
ghost use Rattle.binlog_json.specs.Line.{gtid_data, gtid_text};
ghost use Rattle.binlog_json.specs.LineBytes.{line_bytes};
ghost use Rattle.binlog_json.specs.Growth.{Prints, Quotes};
ghost use Rattle.binlog_select.specs.Text.{GrowsBy};

use crate::lines::Line;
use binlog_select::push_number;
use std::alloc::{AllocError, Global};
use uuid::Uuid;

/// The text of a GTID's source, kept from one transaction to the next, which mostly has the same.
#[derive(Drop)]
pub(crate) struct SourceText {
    /// Whether the text is the source's.
    is_known: bool,
    source: Uuid,
    text: Line,
    ghost text_is: { is_known ≡ true → line_bytes text ≡ hyphenated_text lower source },
}

impl SourceText {
    ghost use Rattle.std.specs.Prelude.{◌≡◌, true, OnOk};
    ghost use Rattle.uuid.specs.Text.{hyphenated_text, lower};
    ghost use Rattle.binlog_json.specs.LineBytes.{line_bytes};

    pub(crate) fn new(alloc: Global) -> SourceText {
        SourceText {
            is_known: false,
            source: Uuid::nil(),
            text: Line::new(alloc),
        }
    }

    /// Takes the text of a source in place of the one that it held, unless this is it.
    fn take(&mut self, source: Uuid) -> Result<(), AllocError>
        ensures { OnOk result (line_bytes self.new.text ≡ hyphenated_text lower source) }
    {
        if self.is_known && self.source == source {
            return Ok(());
        }
        self.is_known = false;
        self.source = source;
        self.text.clear();
        let mut buffer = Uuid::encode_buffer();
        self.text
            .push_str(source.hyphenated().encode_lower(&mut buffer))?;
        self.is_known = true;
        Ok(())
    }
}

/// Appends a GTID as a string, or `null` for none.
pub(crate) fn append_gtid(
    out: &mut Line,
    kept: &mut SourceText,
    gtid: Option<(Uuid, u64)>,
) -> Result<(), AllocError>
    ensures { OnOk result (Prints out.old out.new (gtid_data gtid)) }
{
    match gtid {
        None => out.push_str("null"),
        Some((source, number)) => append_quoted(out, kept, source, number),
    }
}

/// Appends the text of a GTID as a string. None of its characters needs an escape.
fn append_quoted(
    out: &mut Line,
    kept: &mut SourceText,
    source: Uuid,
    number: u64,
) -> Result<(), AllocError>
    ensures { OnOk result (Quotes out.old out.new (gtid_text (source, number))) }
{
    kept.take(source)?;
    out.push(b'"')?;
    out.push_str(kept.text.as_str())?;
    out.push(b':')?;
    out.push_number(number)?;
    out.push(b'"')
}

/// Appends the text of a GTID: its source and its number, parted by a colon. Where it finds no memory, nothing is said of what was
/// appended.
pub fn push_gtid(text: &mut String, source: Uuid, number: u64) -> Result<(), AllocError>
    ensures { OnOk result (GrowsBy text.old text.new (gtid_text (source, number))) }
{
    let mut buffer = Uuid::encode_buffer();
    text.push_str(source.hyphenated().encode_lower(&mut buffer))?;
    text.push(':')?;
    push_number(text, number)
}
