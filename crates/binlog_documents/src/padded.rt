//! Numbers with zeros in front of them.
ghost use Rattle.std.specs.Prelude.{◌≡◌, ◌++◌, OnOk, replicate};
ghost use Rattle.binlog_documents.specs.Opaques.{padded};

use itoa::Buffer;
use std::alloc::AllocError;

pub(crate) fn push_copies(out: &mut Vec<u8>, byte: u8, count: usize) -> Result<(), AllocError>
    ensures { OnOk result (out.new.items ≡ out.old.items ++ replicate count byte) }
{
    for _place in 0..count {
        out.push(byte)?;
    }
    Ok(())
}

/// The number with zeros in front of it, up to the width.
pub(crate) fn push_padded(out: &mut Vec<u8>, number: u64, width: usize) -> Result<(), AllocError>
    ensures { OnOk result (out.new.items ≡ out.old.items ++ padded width number) }
{
    let mut buffer = Buffer::new();
    let digits = buffer.format(number);
    push_copies(out, b'0', width.saturating_sub(digits.len()))?;
    out.extend_from_slice(digits.as_bytes())
}
