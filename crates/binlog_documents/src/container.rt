//! Arrays and objects: how many elements or members they have, and the bytes that these lie in.
ghost use Rattle.std.specs.Prelude.{◌≡◌, ◌<◌, ◌≤◌, ◌+◌, ◌*◌, ◌^◌, length, option_map, IfSome};
ghost use Rattle.byteorder.specs.Endian.{little_number};
ghost use Rattle.binlog_documents.specs.Containers.{container_at, element_entry, is_inlined, key_entry, keys_end, member_entries, value_place};
ghost use Rattle.binlog_documents.specs.Appended.{IsFrontOf};
ghost use Rattle.binlog_documents.specs.Widths.{bytes_of, container_view};

use byteorder::{ByteOrder, LittleEndian};

/// How many bytes the numbers of a container have: two in a small one, four in a large one.
#[derive(Clone, Copy)]
pub(crate) enum Width {
    Two,
    Four,
}

/// An array or an object: how many elements or members it has, and its bytes, as many as its size says.
#[derive(Clone, Copy)]
pub(crate) struct Container<'a> {
    pub(crate) count: usize,
    pub(crate) bytes: &'a [u8],
}

impl Width {
    #[inline(always)]
    pub(crate) fn bytes(self) -> usize
        ensures value { result ≡ bytes_of self }
        ensures some { 2 ≤ result }
        ensures few { result ≤ 4 }
    {
        match self {
            Width::Two => 2,
            Width::Four => 4,
        }
    }
}

/// The number at the front of the bytes.
#[inline(always)]
pub(crate) fn number(bytes: &[u8], width: Width) -> usize
    requires { bytes_of width ≤ length bytes.now }
    ensures value { result ≡ little_number (bytes_of width) bytes.now }
    ensures bound { result < 2 ^ 32 }
{
    match width {
        Width::Two => usize::from(LittleEndian::read_u16(bytes)),
        Width::Four => LittleEndian::read_u32(bytes) as usize,
    }
}

/// The container at the front of the bytes, whose elements or members have so many bytes of entries each.
#[inline(always)]
#[tactic(auto, unfolding(crate::specs::Containers::container_at))]
pub(crate) fn container_at(bytes: &[u8], width: Width, entry_len: usize) -> Option<Container<'_>>
    requires { entry_len ≤ 16 }
    ensures value { option_map container_view result ≡ container_at entry_len (bytes_of width) bytes.now }
    ensures room { IfSome result (λ c. 2 * bytes_of width + c.count * entry_len ≤ length c.bytes.now) }
    ensures within { IfSome result (λ c. length c.bytes.now ≤ length bytes.now) }
    ensures front { IfSome result (λ c. IsFrontOf bytes.now c.bytes.now) }
    ensures bound { IfSome result (λ c. c.count < 2 ^ 32) }
{
    let head = 2 * width.bytes();
    if bytes.len() < head {
        return None;
    }
    let count = number(bytes, width);
    let size = number(&bytes[width.bytes()..], width);
    if head + count * entry_len > size || size > bytes.len() {
        return None;
    }
    Some(Container {
        count,
        bytes: &bytes[..size],
    })
}

/// Whether values of a type stand in their entries.
#[inline(always)]
pub(crate) fn is_inlined(width: Width, kind: u8) -> bool
    ensures { result ≡ is_inlined (bytes_of width) kind }
{
    match width {
        Width::Two => matches!(kind, 4 | 5 | 6),
        Width::Four => matches!(kind, 4 | 5 | 6 | 7 | 8),
    }
}

/// Where the value of the entry at a place stands: in the bytes, and not in front of `from`.
#[inline(always)]
#[tactic(auto, unfolding(crate::specs::Containers::value_place))]
pub(crate) fn value_place(bytes: &[u8], width: Width, entry: usize, from: usize) -> Option<usize>
    requires { entry + element_entry (bytes_of width) ≤ length bytes.now }
    ensures value { result ≡ value_place (bytes_of width) bytes.now entry from }
    ensures within { IfSome result (λ place. place ≤ length bytes.now) }
{
    let place = number(&bytes[entry + 1..], width);
    if place < from || place > bytes.len() {
        return None;
    }
    Some(place)
}

/// Where a key stands, by its entry, and its length.
#[inline(always)]
pub(crate) fn key_entry(bytes: &[u8], width: Width, entry: usize) -> (usize, usize)
    requires { entry + (bytes_of width + 2) ≤ length bytes.now }
    ensures value { result ≡ key_entry (bytes_of width) bytes.now entry }
    ensures place { result.0 < 2 ^ 32 }
    ensures len { result.1 < 2 ^ 16 }
{
    let place = number(&bytes[entry..], width);
    let len = LittleEndian::read_u16(&bytes[entry + width.bytes()..]);
    (place, usize::from(len))
}

/// Where the last key of an object ends.
#[inline(always)]
pub(crate) fn keys_end(object: Container<'_>, width: Width) -> usize
    requires room { 2 * bytes_of width + object.count * member_entries (bytes_of width) ≤ length object.bytes.now }
    requires few { object.count < 2 ^ 32 }
    ensures { result ≡ keys_end (bytes_of width) object.entry.bytes.now object.entry.count }
{
    if object.count == 0 {
        return 0;
    }
    let last = 2 * width.bytes() + (object.count - 1) * (width.bytes() + 2);
    let (place, len) = key_entry(object.bytes, width, last);
    place + len
}
