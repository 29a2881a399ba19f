//! Texts that are mostly short, put to places of bytes that have room for them: by copies of constant width, which need no call.
ghost use Rattle.std.specs.Prelude.{◌≡◌, ◌+◌, ◌<◌, ◌≤◌, ◌∷◌, [], length, take, decimal};
ghost use Rattle.json.specs.Filled.{Placed};
ghost use Rattle.binlog_table.specs.Decimal.{digits_of};
ghost use Rattle.binlog_json.specs.Texts.{digits_text};

use crate::digits::pair;
use std::simd::Simd;

/// Puts a byte to a place. Where it ends.
#[inline(always)]
pub(crate) fn put_byte(bytes: &mut [u8], at: usize, byte: u8) -> usize
    requires { at < length bytes.old }
    ensures { Placed bytes.old bytes.new at (byte ∷ []) result }
{
    bytes[at] = byte;
    at + 1
}

/// Puts a text to a place. Where it ends.
#[inline(always)]
pub(crate) fn put_text(bytes: &mut [u8], at: usize, text: &[u8]) -> usize
    requires { at + length text.now ≤ length bytes.old }
    ensures { Placed bytes.old bytes.new at text.now result }
{
    let len = text.len();
    if len > 64 {
        put_at_once(bytes, at, text)
    } else if len > 32 {
        put_ends::<32>(bytes, at, text)
    } else if len >= 16 {
        put_ends::<16>(bytes, at, text)
    } else if len >= 8 {
        put_ends::<8>(bytes, at, text)
    } else if len >= 4 {
        put_ends::<4>(bytes, at, text)
    } else if len >= 2 {
        put_ends::<2>(bytes, at, text)
    } else if len == 1 {
        put_front::<1>(bytes, at, text)
    } else {
        at
    }
}

/// Puts a text to a place by one copy. Where it ends.
#[inline(always)]
pub(crate) fn put_at_once(bytes: &mut [u8], at: usize, text: &[u8]) -> usize
    requires { at + length text.now ≤ length bytes.old }
    ensures { Placed bytes.old bytes.new at text.now result }
{
    let end = at + text.len();
    bytes[at..end].copy_from_slice(text);
    end
}

/// How many digits a number has.
#[inline(always)]
pub(crate) fn count_digits(number: u64) -> usize
    ensures { result ≡ length (decimal number) }
{
    number.max(1).ilog10() as usize + 1
}

/// Puts a number in decimal digits, as many as it has, to a place. Where they end.
#[inline(always)]
pub(crate) fn put_number(bytes: &mut [u8], at: usize, number: u64, count: usize) -> usize
    requires count { count ≡ length (decimal number) }
    requires room { at + count ≤ length bytes.old }
    ensures { Placed bytes.old bytes.new at (decimal number) result }
{
    let end = at + count;
    itoa::write_digits(number, bytes, end);
    end
}

/// Puts the first bytes of sixteen or more to a place, by one copy. Where they end.
#[inline(always)]
pub(crate) fn put_first(bytes: &mut [u8], at: usize, text: &[u8], count: usize) -> usize
    requires count { count ≤ 16 }
    requires text { 16 ≤ length text.now }
    requires room { at + 16 ≤ length bytes.old }
    ensures { Placed bytes.old bytes.new at (take count text.now) result }
{
    put_front::<16>(bytes, at, text);
    at + count
}

#[inline(always)]
fn put_front<const WIDTH: usize>(bytes: &mut [u8], at: usize, text: &[u8]) -> usize
    requires text { WIDTH ≤ length text.now }
    requires room { at + WIDTH ≤ length bytes.old }
    ensures { Placed bytes.old bytes.new at (take WIDTH text.now) result }
{
    Simd::<u8, WIDTH>::from_slice(text).copy_to_slice(&mut bytes[at..]);
    at + WIDTH
}

/// Puts a text to a place by its first bytes and its last ones, which may overlap.
#[inline(always)]
fn put_ends<const WIDTH: usize>(bytes: &mut [u8], at: usize, text: &[u8]) -> usize
    requires room { at + length text.now ≤ length bytes.old }
    requires enough { WIDTH ≤ length text.now }
    requires few { length text.now ≤ WIDTH + WIDTH }
    ensures { Placed bytes.old bytes.new at text.now result }
{
    let last = text.len() - WIDTH;
    put_front::<WIDTH>(bytes, at, text);
    put_front::<WIDTH>(bytes, at + last, &text[last..])
}

/// Puts the last digits of a number to a place, as characters, from the right by pairs. Where they end.
#[inline(always)]
pub(crate) fn put_digits(bytes: &mut [u8], at: usize, number: u64, width: usize) -> usize
    requires { at + width ≤ length bytes.old }
    ensures { Placed bytes.old bytes.new at (digits_text (digits_of width number)) result }
{
    let mut left = number;
    let mut place = width;
    while place >= 2 {
        place -= 2;
        let digits = pair((left % 100) as u8);
        bytes[at + place + 1] = digits.1;
        bytes[at + place] = digits.0;
        left /= 100;
    }
    if place == 1 {
        bytes[at] = b'0' + (left % 10) as u8;
    }
    at + width
}
