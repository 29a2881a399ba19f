//! Decimals as numbers of JSON, at the end of a text.
ghost use Rattle.std.specs.Prelude.{◌≡◌, ◌<◌, ◌≤◌, ◌+◌, ◌-◌, ◌^◌, ◌++◌, length, map, OnOk, IfOk, nat_lt, slice_index, ◌==◌};
ghost use Rattle.std.specs.List.{list_all};
ghost use Rattle.byteorder.specs.Endian.{big_number};
ghost use Rattle.binlog_documents.specs.Appended.{AppendsText, IsRead};
ghost use Rattle.binlog_documents.specs.Opaques.{decimal_opaque, digits_in, group_len, group_text, groups, has_precision, plain, point_text, scaled_text, without_zeros};

use crate::padded::{push_copies, push_padded};
use byteorder::{BigEndian, ByteOrder};
use std::alloc::{AllocError, Global};

/// How many bytes a group of digits takes.
fn group_len(digits: u8) -> usize
    requires { digits ≤ 9 }
    ensures value { result ≡ group_len digits }
    ensures bound { result ≤ 4 }
{
    ((usize::from(digits) + 1) / 2).min(4)
}

/// The first number that has more digits.
fn limit(digits: u8) -> u64
    requires { digits ≤ 9 }
    ensures { result ≡ 10 ^ digits }
{
    match digits {
        0 => 1,
        1 => 10,
        2 => 100,
        3 => 1_000,
        4 => 10_000,
        5 => 100_000,
        6 => 1_000_000,
        7 => 10_000_000,
        8 => 100_000_000,
        _ => 1_000_000_000,
    }
}

/// The number that so many bytes at the front spell, the highest first.
fn big(bytes: &[u8], len: usize) -> u64
    requires few { len ≤ 4 }
    requires room { len ≤ length bytes.now }
    ensures { result ≡ big_number len bytes.now }
{
    if len == 0 {
        return 0;
    }
    BigEndian::read_uint(bytes, len)
}

fn push_group(out: &mut Vec<u8>, digits: u8, number: u64) -> Result<(), AllocError>
    ensures { OnOk result (out.new.items ≡ out.old.items ++ group_text digits number) }
{
    if digits == 0 {
        return Ok(());
    }
    push_padded(out, number, usize::from(digits))
}

/// Appends the digits of groups, where they take all bytes.
#[tactic(auto, unfolding(crate::specs::Opaques::digits_in))]
fn push_digits(out: &mut Vec<u8>, groups: &[u8], bytes: &[u8]) -> Result<bool, AllocError>
    ensures { IfOk result (IsRead out.old.items out.new.items (digits_in groups.now bytes.now)) }
{
    let [digits, more @ ..] = groups else {
        return Ok(bytes.is_empty());
    };
    if *digits > 9 {
        return Ok(false);
    }
    let len = group_len(*digits);
    if len > bytes.len() {
        return Ok(false);
    }
    let number = big(bytes, len);
    if number >= limit(*digits) {
        return Ok(false);
    }
    push_group(out, *digits, number)?;
    push_digits(out, more, &bytes[len..])
}

/// How many digits each group of a decimal has.
fn groups_of(alloc: Global, front: u8, behind: u8) -> Result<Vec<u8>, AllocError>
    ensures { IfOk result (λ v. v.items ≡ groups front behind) }
{
    let mut groups = Vec::new(alloc);
    groups.push(front % 9)?;
    push_copies(
        &mut groups,
        9,
        usize::from(front / 9) + usize::from(behind / 9),
    )?;
    groups.push(behind % 9)?;
    Ok(groups)
}

/// Whether a decimal is stored as one below zero.
fn is_negative(bytes: &[u8]) -> bool
    ensures { result ≡ nat_lt (slice_index bytes.now 0) 128 }
{
    match bytes {
        [] => true,
        [first, ..] => *first < 128,
    }
}

fn push_turned(out: &mut Vec<u8>, bytes: &[u8]) -> Result<(), AllocError>
    ensures { OnOk result (out.new.items ≡ out.old.items ++ map (λ b. 255 - b) bytes.now) }
{
    for byte in bytes {
        out.push(255 - *byte)?;
    }
    Ok(())
}

/// The bytes without their sign.
fn plain_bytes(alloc: Global, negative: bool, bytes: &[u8]) -> Result<Vec<u8>, AllocError>
    requires { negative ≡ nat_lt (slice_index bytes.now 0) 128 }
    ensures { IfOk result (λ v. v.items ≡ plain negative bytes.now) }
{
    let mut plain = Vec::new(alloc);
    let [first, others @ ..] = bytes else {
        return Ok(plain);
    };
    if !negative {
        plain.push(*first - 128)?;
        plain.extend_from_slice(others)?;
        return Ok(plain);
    }
    plain.push(127 - *first)?;
    push_turned(&mut plain, others)?;
    Ok(plain)
}

/// Digits without the zeros in front, but at least one.
fn push_whole(out: &mut Vec<u8>, digits: &[u8]) -> Result<(), AllocError>
    ensures { OnOk result (out.new.items ≡ out.old.items ++ without_zeros digits.now) }
{
    let mut at = 0;
    while at < digits.len() && digits[at] == b'0' {
        at += 1;
    }
    if at == digits.len() {
        out.push(b'0')?;
        return Ok(());
    }
    out.extend_from_slice(&digits[at..])
}

/// A point and the digits behind it, or nothing where there are none.
fn push_point(out: &mut Vec<u8>, digits: &[u8]) -> Result<(), AllocError>
    ensures { OnOk result (out.new.items ≡ out.old.items ++ point_text digits.now) }
{
    if digits.is_empty() {
        return Ok(());
    }
    out.push(b'.')?;
    out.extend_from_slice(digits)
}

fn are_zeros(digits: &[u8]) -> bool
    ensures { result ≡ list_all (λ d. d == 48) digits.now }
{
    digits.iter().all(|digit| *digit == b'0')
}

/// Digits with a point behind so many of them, where there are so many.
fn push_scaled(
    out: &mut Vec<u8>,
    negative: bool,
    front: usize,
    digits: &[u8],
) -> Result<(), AllocError>
    ensures { OnOk result (out.new.items ≡ out.old.items ++ scaled_text negative front digits.now) }
{
    if negative && !are_zeros(digits) {
        out.push(b'-')?;
    }
    let front = front.min(digits.len());
    push_whole(out, &digits[..front])?;
    push_point(out, &digits[front..])
}

fn has_precision(precision: u8, scale: u8) -> bool
    ensures { result ≡ has_precision precision scale }
{
    1 <= precision && precision <= 81 && scale <= precision
}

/// A decimal, where the bytes are one. False, and nothing is appended, where they are none.
#[tactic(auto, unfolding(crate::specs::Opaques::decimal_opaque))]
pub(crate) fn append_decimal(out: &mut Vec<u8>, bytes: &[u8]) -> Result<bool, AllocError>
    ensures { IfOk result (AppendsText out.old.items out.new.items (decimal_opaque bytes.now)) }
{
    let [precision, scale, stored @ ..] = bytes else {
        return Ok(false);
    };
    if !has_precision(*precision, *scale) {
        return Ok(false);
    }
    let alloc = *out.allocator();
    let negative = is_negative(stored);
    let front = *precision - *scale;
    let groups = groups_of(alloc, front, *scale)?;
    let plain = plain_bytes(alloc, negative, stored)?;
    let mut digits = Vec::new(alloc);
    if !push_digits(&mut digits, &groups, &plain)? {
        return Ok(false);
    }
    push_scaled(out, negative, usize::from(front), &digits)?;
    Ok(true)
}
