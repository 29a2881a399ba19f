//! Values of VECTOR columns in full lines: arrays of FLOATs.
ghost use Rattle.std.specs.Prelude.{IsAscii, IfOk, OnOk};
ghost use Rattle.serde_json.specs.Written.{comma_if};
ghost use Rattle.binlog_json.specs.FullValues.{vector_text};
ghost use Rattle.binlog_json.specs.Growth.{Gathers};
ghost use Rattle.binlog_json.specs.Reading.{IsRead};

use float_text::push_stored;
use std::alloc::AllocError;

/// Appends the array of the FLOATs that stand one behind another, and answers true. False where one has no text or bytes are left; then
/// the texts of those in front may have been appended.
pub(crate) fn append_vector(out: &mut Vec<u8>, bytes: &[u8]) -> Result<bool, AllocError>
    ensures text { IfOk result (IsRead out.old.items out.new.items (vector_text bytes.now)) }
    ensures ascii { IfOk result (λ _. IsAscii out.old.items → IsAscii out.new.items) }
{
    out.push(b'[')?;
    let mut rest = bytes;
    let mut later = false;
    while rest.len() >= 4 {
        let (number, after) = rest.split_at(4);
        append_comma(out, later)?;
        if !push_stored(out, number)? {
            return Ok(false);
        }
        rest = after;
        later = true;
    }
    if !rest.is_empty() {
        return Ok(false);
    }
    out.push(b']')?;
    Ok(true)
}

/// Appends a comma, if something stands in front.
fn append_comma(out: &mut Vec<u8>, later: bool) -> Result<(), AllocError>
    ensures { OnOk result (Gathers out.old out.new (comma_if later)) }
{
    if later {
        out.push(b',')?;
    }
    Ok(())
}
