//! Values that have no parts, by their bytes. Each function says how many of them the value takes.
ghost use Rattle.std.specs.Prelude.{◌≡◌, ◌≤◌, length, IfSome};
ghost use Rattle.binlog_documents.specs.Scalars.{literal_at, number_at, signed, unsigned, double_at, text_at, opaque_at, scalar_at};
ghost use Rattle.binlog_documents.specs.ScalarShown.{reading_view};

use crate::bytes::{counted_at, utf8_text};
use crate::scalar::{Finite, Scalar};
use byteorder::{ByteOrder, LittleEndian};

#[tactic(auto, unfolding(crate::specs::Scalars::literal_at))]
fn literal_at(bytes: &[u8]) -> Option<(Scalar<'_>, usize)>
    ensures value { reading_view result ≡ literal_at bytes.now }
    ensures within { IfSome result (λ x. x.1 ≤ length bytes.now) }
{
    let [code, ..] = bytes else {
        return None;
    };
    match *code {
        0 => Some((Scalar::Null, 1)),
        1 => Some((Scalar::Boolean(true), 1)),
        2 => Some((Scalar::Boolean(false), 1)),
        _ => None,
    }
}

/// A number of two, four or eight bytes, as two's complement.
#[tactic(auto, unfolding(crate::specs::Scalars::number_at))]
fn signed_at(bytes: &[u8], width: usize) -> Option<(Scalar<'_>, usize)>
    requires some { 1 ≤ width }
    requires few { width ≤ 8 }
    ensures value { reading_view result ≡ number_at width (signed width) bytes.now }
    ensures within { IfSome result (λ x. x.1 ≤ length bytes.now) }
{
    if width > bytes.len() {
        return None;
    }
    Some((Scalar::Signed(LittleEndian::read_int(bytes, width)), width))
}

/// A number of two, four or eight bytes.
#[tactic(auto, unfolding(crate::specs::Scalars::number_at))]
fn unsigned_at(bytes: &[u8], width: usize) -> Option<(Scalar<'_>, usize)>
    requires some { 1 ≤ width }
    requires few { width ≤ 8 }
    ensures value { reading_view result ≡ number_at width unsigned bytes.now }
    ensures within { IfSome result (λ x. x.1 ≤ length bytes.now) }
{
    if width > bytes.len() {
        return None;
    }
    let number = LittleEndian::read_uint(bytes, width);
    Some((Scalar::Unsigned(number), width))
}

#[tactic(auto, unfolding(crate::specs::Scalars::double_at))]
fn double_at(bytes: &[u8]) -> Option<(Scalar<'_>, usize)>
    ensures value { reading_view result ≡ double_at bytes.now }
    ensures within { IfSome result (λ x. x.1 ≤ length bytes.now) }
{
    if bytes.len() < 8 {
        return None;
    }
    let bits = LittleEndian::read_u64(bytes);
    if bits % (1 << 63) >= 0x7ff0_0000_0000_0000 {
        return None;
    }
    Some((Scalar::Double(Finite { bits }), 8))
}

#[tactic(auto, unfolding(crate::specs::Scalars::text_at))]
fn text_at(bytes: &[u8]) -> Option<(Scalar<'_>, usize)>
    ensures value { reading_view result ≡ text_at bytes.now }
    ensures within { IfSome result (λ x. x.1 ≤ length bytes.now) }
{
    let (text, len) = counted_at(bytes)?;
    let text = utf8_text(text)?;
    Some((Scalar::Text(text), len))
}

#[tactic(auto, unfolding(crate::specs::Scalars::opaque_at))]
fn opaque_at(bytes: &[u8]) -> Option<(Scalar<'_>, usize)>
    ensures value { reading_view result ≡ opaque_at bytes.now }
    ensures within { IfSome result (λ x. x.1 ≤ length bytes.now) }
{
    let [kind, rest @ ..] = bytes else {
        return None;
    };
    let (value, len) = counted_at(rest)?;
    Some((Scalar::Opaque(*kind, value), len + 1))
}

/// The value at the front of the bytes, by its type.
#[tactic(auto, unfolding(crate::specs::Scalars::scalar_at))]
pub(crate) fn scalar_at(kind: u8, bytes: &[u8]) -> Option<(Scalar<'_>, usize)>
    ensures value { reading_view result ≡ scalar_at kind bytes.now }
    ensures within { IfSome result (λ x. x.1 ≤ length bytes.now) }
{
    match kind {
        4 => literal_at(bytes),
        5 => signed_at(bytes, 2),
        6 => unsigned_at(bytes, 2),
        7 => signed_at(bytes, 4),
        8 => unsigned_at(bytes, 4),
        9 => signed_at(bytes, 8),
        10 => unsigned_at(bytes, 8),
        11 => double_at(bytes),
        12 => text_at(bytes),
        15 => opaque_at(bytes),
        _ => None,
    }
}
