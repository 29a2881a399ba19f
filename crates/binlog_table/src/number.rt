//! Numbers whose count of bytes is known only at run time. Each usual count has an arm of its own, which reads it without a loop.
ghost use Rattle.std.specs.Prelude.{◌≡◌, ◌≤◌, ◌-◌, length, drop};
ghost use Rattle.byteorder.specs.Endian.{big_number, little_number, twos_complement};

use byteorder::{BigEndian, ByteOrder, LittleEndian};

/// The number that so many bytes at the front spell, the lowest first.
#[inline(always)]
pub(crate) fn little(bytes: &[u8], width: usize) -> u64
    requires some { 1 ≤ width }
    requires few { width ≤ 8 }
    requires room { width ≤ length bytes.now }
    ensures { result ≡ little_number width bytes.now }
{
    match width {
        1 => u64::from(bytes[0]),
        2 => u64::from(LittleEndian::read_u16(bytes)),
        3 => u64::from(LittleEndian::read_u24(bytes)),
        4 => u64::from(LittleEndian::read_u32(bytes)),
        8 => LittleEndian::read_u64(bytes),
        _ => LittleEndian::read_uint(bytes, width),
    }
}

/// The number in two's complement that so many bytes at the front spell, the lowest first.
#[inline(always)]
pub(crate) fn little_signed(bytes: &[u8], width: usize) -> i64
    requires some { 1 ≤ width }
    requires few { width ≤ 8 }
    requires room { width ≤ length bytes.now }
    ensures { result ≡ twos_complement width (little_number width bytes.now) }
{
    match width {
        1 => LittleEndian::read_int(bytes, 1),
        2 => LittleEndian::read_int(bytes, 2),
        3 => LittleEndian::read_int(bytes, 3),
        4 => LittleEndian::read_int(bytes, 4),
        8 => LittleEndian::read_int(bytes, 8),
        _ => LittleEndian::read_int(bytes, width),
    }
}

/// The number that so many bytes at the front spell, the highest first.
#[inline(always)]
pub(crate) fn big(bytes: &[u8], width: usize) -> u64
    requires some { 1 ≤ width }
    requires few { width ≤ 8 }
    requires room { width ≤ length bytes.now }
    ensures { result ≡ big_number width bytes.now }
{
    match width {
        1 => u64::from(bytes[0]),
        2 => u64::from(BigEndian::read_u16(bytes)),
        3 => u64::from(BigEndian::read_u24(bytes)),
        4 => u64::from(BigEndian::read_u32(bytes)),
        5 => BigEndian::read_uint(bytes, 5),
        6 => BigEndian::read_uint(bytes, 6),
        8 => BigEndian::read_u64(bytes),
        _ => BigEndian::read_uint(bytes, width),
    }
}

/// The number that so many bytes in front of a place spell, the lowest first. At least eight bytes stand in front of it: they are loaded at
/// once, and those that aren't the number's are shifted out.
#[inline(always)]
pub(crate) fn little_before(bytes: &[u8], end: usize, width: usize) -> u64
    requires some { 1 ≤ width }
    requires few { width ≤ 8 }
    requires front { 8 ≤ end }
    requires room { end ≤ length bytes.now }
    ensures { result ≡ little_number width (drop (end - width) bytes.now) }
{
    LittleEndian::read_u64(&bytes[end - 8..]) >> (64 - 8 * width)
}
