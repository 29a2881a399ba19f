//! Whether a text stands in a string as it is: up to sixteen bytes at a time, where two loads that overlap cover the last ones.
ghost use Rattle.std.specs.Prelude.{◌+◌, ◌≤◌, ◌↔◌, IsTrue, length};
ghost use Rattle.binlog_documents.specs.PlainText.{PlainBetween, IsPlainBelow};

use std::simd::prelude::*;

/// Whether no byte of a text needs an escape, and each is below the limit: 0x80 for ASCII characters, 0xff for any.
#[tactic(auto, using(crate::proofs::PlainText::care_within, crate::proofs::PlainText::last_part))]
#[inline(always)]
pub fn is_plain<const LIMIT: u8>(text: &[u8]) -> bool
    ensures { IsTrue result ↔ IsPlainBelow LIMIT text.now }
{
    let len = text.len();
    if len >= 16 {
        is_plain_long::<LIMIT>(text)
    } else if len >= 8 {
        is_plain_8::<LIMIT>(text, 0) && is_plain_8::<LIMIT>(text, len - 8)
    } else if len >= 4 {
        is_plain_4::<LIMIT>(text, 0) && is_plain_4::<LIMIT>(text, len - 4)
    } else {
        is_plain_short::<LIMIT>(text)
    }
}

/// Whether so many bytes at the front of sixteen or more are so, by one load.
#[inline(always)]
pub(crate) fn is_plain_front<const LIMIT: u8>(text: &[u8], count: usize) -> bool
    requires text { 16 ≤ length text.now }
    requires count { count ≤ 16 }
    ensures { IsTrue result ↔ PlainBetween LIMIT text.now 0 count }
{
    let bytes = u8x16::from_slice(text);
    let mask = (bytes.simd_eq(u8x16::splat(b'"'))
        | bytes.simd_eq(u8x16::splat(b'\\'))
        | bytes.simd_lt(u8x16::splat(0x20))
        | bytes.simd_ge(u8x16::splat(LIMIT))).to_bitmask();
    count <= mask.trailing_zeros() as usize
}

#[tactic(auto, using(crate::proofs::PlainText::care_within, crate::proofs::PlainText::last_part))]
#[inline(always)]
fn is_plain_long<const LIMIT: u8>(text: &[u8]) -> bool
    requires { 16 ≤ length text.now }
    ensures { IsTrue result ↔ IsPlainBelow LIMIT text.now }
{
    let mut at = 0;
    while text.len() - at > 16 {
        if !is_plain_16::<LIMIT>(text, at) {
            return false;
        }
        at += 16;
    }
    is_plain_16::<LIMIT>(text, text.len() - 16)
}

#[tactic(auto, using(crate::proofs::PlainText::care_at))]
#[inline(always)]
fn is_plain_short<const LIMIT: u8>(text: &[u8]) -> bool
    ensures { IsTrue result ↔ IsPlainBelow LIMIT text.now }
{
    for byte in text {
        let byte = *byte;
        if byte == b'"' || byte == b'\\' || byte < 0x20 || byte >= LIMIT {
            return false;
        }
    }
    true
}

#[inline(always)]
fn is_plain_16<const LIMIT: u8>(text: &[u8], at: usize) -> bool
    requires { at + 16 ≤ length text.now }
    ensures { IsTrue result ↔ PlainBetween LIMIT text.now at (at + 16) }
{
    let bytes = u8x16::from_slice(&text[at..]);
    (bytes.simd_eq(u8x16::splat(b'"'))
        | bytes.simd_eq(u8x16::splat(b'\\'))
        | bytes.simd_lt(u8x16::splat(0x20))
        | bytes.simd_ge(u8x16::splat(LIMIT))).to_bitmask()
        == 0
}

#[inline(always)]
fn is_plain_8<const LIMIT: u8>(text: &[u8], at: usize) -> bool
    requires { at + 8 ≤ length text.now }
    ensures { IsTrue result ↔ PlainBetween LIMIT text.now at (at + 8) }
{
    let bytes = u8x8::from_slice(&text[at..]);
    (bytes.simd_eq(u8x8::splat(b'"'))
        | bytes.simd_eq(u8x8::splat(b'\\'))
        | bytes.simd_lt(u8x8::splat(0x20))
        | bytes.simd_ge(u8x8::splat(LIMIT))).to_bitmask()
        == 0
}

#[inline(always)]
fn is_plain_4<const LIMIT: u8>(text: &[u8], at: usize) -> bool
    requires { at + 4 ≤ length text.now }
    ensures { IsTrue result ↔ PlainBetween LIMIT text.now at (at + 4) }
{
    let bytes = u8x4::from_slice(&text[at..]);
    (bytes.simd_eq(u8x4::splat(b'"'))
        | bytes.simd_eq(u8x4::splat(b'\\'))
        | bytes.simd_lt(u8x4::splat(0x20))
        | bytes.simd_ge(u8x4::splat(LIMIT))).to_bitmask()
        == 0
}
