//! Text on its way to a writer.
ghost use Rattle.std.specs.Prelude.{◌<◌, length, OnOk, OnErr};
ghost use Rattle.line_output.specs.Sending.{enough_waits};
ghost use Rattle.line_output.specs.Writers.{AddsLine, Receives, ReceivesAllBut, ReceivesBeginning};

use crate::fault::{AddFault, WriteFault};
use std::io::Write;

/// What waits goes out once it has so many bytes.
const ENOUGH: usize = 65_536;

/// Writes the whole text, in as many calls of `write` as it takes.
pub fn write_text<W: Write>(out: &mut W, text: &[u8]) -> Result<(), WriteFault>
    ensures ok { OnOk result (Receives W.Write out.old out.new text.now) }
    ensures err { OnErr result (ReceivesBeginning W.Write out.old out.new text.now) }
{
    let mut written = 0;
    while written < text.len() {
        match out.write(&text[written..]) {
            Ok(0) => return Err(WriteFault),
            Ok(count) => written += count,
            Err(_) => return Err(WriteFault),
        }
    }
    Ok(())
}

/// Lets a line wait behind what waits already, and sends all of it where it is enough.
pub fn add_line<W: Write>(out: &mut W, waiting: &mut Vec<u8>, line: &str) -> Result<(), AddFault>
    ensures adds { AddsLine W.Write out.old out.new waiting.old waiting.new line.now result }
    ensures few { OnOk result (length waiting.new.items < enough_waits) }
{
    waiting.extend_from_slice(line.as_bytes())?;
    send_enough(out, waiting)?;
    Ok(())
}

/// Sends what waits where it is enough.
pub fn send_enough<W: Write>(out: &mut W, waiting: &mut Vec<u8>) -> Result<(), WriteFault>
    ensures ok { OnOk result (ReceivesAllBut W.Write out.old out.new waiting.new waiting.old.items) }
    ensures few { OnOk result (length waiting.new.items < enough_waits) }
    ensures err { OnErr result (ReceivesBeginning W.Write out.old out.new waiting.old.items) }
{
    if waiting.len() < ENOUGH {
        return Ok(());
    }
    write_text(out, waiting.as_slice())?;
    waiting.clear();
    Ok(())
}
