//! Values of MySQL's other types as JSON, at the end of a text.
ghost use Rattle.std.specs.Prelude.{◌≡◌, ◌++◌, OnOk, OnErr, IfOk, decimal};
ghost use Rattle.json.specs.Print.{quoted};
ghost use Rattle.base64.specs.Engines.{standard};
ghost use Rattle.base64.specs.GeneralPurpose.{encode_of};
ghost use Rattle.binlog_documents.specs.Opaques.{encoded_text, opaque_text};

use crate::decimal::append_decimal;
use crate::quote::push_quoted;
use crate::time::append_time;
use base64::engine::general_purpose::STANDARD;
use itoa::Buffer;
use std::alloc::AllocError;

/// The bytes in base64, as a string.
fn push_base64(out: &mut Vec<u8>, bytes: &[u8]) -> Result<(), AllocError>
    ensures { OnOk result (out.new.items ≡ out.old.items ++ quoted (encode_of standard bytes.now)) }
{
    let text = STANDARD.encode(*out.allocator(), bytes)?;
    push_quoted(out, text.as_str())
}

fn push_unsigned(out: &mut Vec<u8>, number: u64) -> Result<(), AllocError>
    ensures { OnOk result (out.new.items ≡ out.old.items ++ decimal number) }
{
    let mut buffer = Buffer::new();
    out.extend_from_slice(buffer.format(number).as_bytes())
}

/// An object that has the bytes in base64, and the type.
fn push_encoded(out: &mut Vec<u8>, kind: u8, bytes: &[u8]) -> Result<(), AllocError>
    ensures { OnOk result (out.new.items ≡ out.old.items ++ encoded_text kind bytes.now) }
{
    out.extend_from_slice(b"{\"base64\":")?;
    push_base64(out, bytes)?;
    out.extend_from_slice(b",\"type\":")?;
    push_unsigned(out, u64::from(kind))?;
    out.extend_from_slice(b"}")
}

/// A value of another of MySQL's types.
pub(crate) fn push_opaque(out: &mut Vec<u8>, kind: u8, bytes: &[u8]) -> Result<(), AllocError>
    ensures { OnOk result (out.new.items ≡ out.old.items ++ opaque_text kind bytes.now) }
{
    let is_shown = match kind {
        246 => append_decimal(out, bytes)?,
        7 | 10 | 11 | 12 => append_time(out, kind, bytes)?,
        _ => false,
    };
    if is_shown {
        return Ok(());
    }
    push_encoded(out, kind, bytes)
}
