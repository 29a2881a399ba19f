//! Scalars as JSON, at the end of a text.
ghost use Rattle.std.specs.Prelude.{◌≡◌, ◌++◌, ◌≤◌, OnOk, IfOk, decimal, length, take};
ghost use Rattle.std.specs.Fmt.{signed_decimal};
ghost use Rattle.json.specs.Print.{quoted};
ghost use Rattle.binlog_documents.specs.Appended.{AppendsText};
ghost use Rattle.binlog_documents.specs.Drafts.{said};
ghost use Rattle.binlog_documents.specs.Opaques.{opaque_text};
ghost use Rattle.binlog_documents.specs.Texts.{comma_if, document_text, key_text, string_text};
ghost use Rattle.binlog_documents.specs.ScalarShown.{scalar_view};

use crate::bytes::utf8_text;
use crate::draft::Draft;
use crate::opaque::push_opaque;
use crate::plain::{is_plain, is_plain_front};
use crate::quote::push_quoted;
use crate::scalar::Scalar;
use itoa::Buffer;
use std::alloc::AllocError;

/// A comma, where something stands before it.
pub(crate) fn append_comma(out: &mut Draft, later: bool) -> Result<(), AllocError>
    ensures { OnOk result (said out.new ≡ said out.old ++ comma_if later) }
{
    if later {
        out.push_byte(b',')?;
    }
    Ok(())
}

fn append_signed(out: &mut Draft, number: i64) -> Result<(), AllocError>
    ensures { OnOk result (said out.new ≡ said out.old ++ signed_decimal number) }
{
    let mut buffer = Buffer::new();
    out.push(buffer.format(number).as_bytes())
}

fn append_unsigned(out: &mut Draft, number: u64) -> Result<(), AllocError>
    ensures { OnOk result (said out.new ≡ said out.old ++ decimal number) }
{
    let mut buffer = Buffer::new();
    out.push(buffer.format(number).as_bytes())
}

/// The first bytes of others as a string, where they are UTF-8. False, and nothing is appended, where they aren't.
#[inline(always)]
pub(crate) fn append_text(out: &mut Draft, bytes: &[u8], len: usize) -> Result<bool, AllocError>
    requires { len ≤ length bytes.now }
    ensures { IfOk result (AppendsText (said out.old) (said out.new) (string_text (take len bytes.now))) }
{
    if len <= 16 && bytes.len() >= 16 && is_plain_front::<0x80>(bytes, len) {
        out.push_first_string(bytes, len)?;
        return Ok(true);
    }
    append_any_text(out, &bytes[..len])
}

#[inline(never)]
fn append_any_text(out: &mut Draft, bytes: &[u8]) -> Result<bool, AllocError>
    ensures { IfOk result (AppendsText (said out.old) (said out.new) (string_text bytes.now)) }
{
    if is_plain::<0x80>(bytes) {
        out.push_string(bytes)?;
        return Ok(true);
    }
    let Some(text) = utf8_text(bytes) else {
        return Ok(false);
    };
    append_quoted(out, text)?;
    Ok(true)
}

/// The first bytes of others as a key with its colon, where they are UTF-8. False where they aren't.
#[inline(always)]
pub(crate) fn append_key(out: &mut Draft, bytes: &[u8], len: usize) -> Result<bool, AllocError>
    requires { len ≤ length bytes.now }
    ensures { IfOk result (AppendsText (said out.old) (said out.new) (key_text (take len bytes.now))) }
{
    if len <= 16 && bytes.len() >= 16 && is_plain_front::<0x80>(bytes, len) {
        out.push_first_key(bytes, len)?;
        return Ok(true);
    }
    if !append_any_text(out, &bytes[..len])? {
        return Ok(false);
    }
    out.push_byte(b':')?;
    Ok(true)
}

/// The text as a string, in quotes and escaped.
fn append_quoted(out: &mut Draft, text: &str) -> Result<(), AllocError>
    ensures { OnOk result (said out.new ≡ said out.old ++ quoted text.now) }
{
    if !is_plain::<0xff>(text.as_bytes()) {
        return append_escaped(out, text);
    }
    out.push_string(text.as_bytes())
}

fn append_escaped(out: &mut Draft, text: &str) -> Result<(), AllocError>
    ensures { OnOk result (said out.new ≡ said out.old ++ quoted text.now) }
{
    out.piece.clear();
    push_quoted(&mut out.piece, text)?;
    out.push_piece()
}

fn append_opaque(out: &mut Draft, kind: u8, bytes: &[u8]) -> Result<(), AllocError>
    ensures { OnOk result (said out.new ≡ said out.old ++ opaque_text kind bytes.now) }
{
    out.piece.clear();
    push_opaque(&mut out.piece, kind, bytes)?;
    out.push_piece()
}

/// A value that has no parts.
pub(crate) fn append_scalar(out: &mut Draft, scalar: Scalar<'_>) -> Result<(), AllocError>
    ensures { OnOk result (said out.new ≡ said out.old ++ document_text (scalar_view scalar.entry)) }
{
    match scalar {
        Scalar::Null => out.push(b"null"),
        Scalar::Boolean(true) => out.push(b"true"),
        Scalar::Boolean(false) => out.push(b"false"),
        Scalar::Signed(number) => append_signed(out, number),
        Scalar::Unsigned(number) => append_unsigned(out, number),
        Scalar::Double(double) => out.push_double(double),
        Scalar::Text(text) => append_quoted(out, text),
        Scalar::Opaque(kind, bytes) => append_opaque(out, kind, bytes),
    }
}
