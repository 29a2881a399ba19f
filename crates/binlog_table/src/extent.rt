//! How many bytes a value takes.
ghost use Rattle.std.specs.Prelude.{◌≡◌, ◌≤◌, length, IfSome};
ghost use Rattle.binlog_table.specs.Extent.{extent_of, extent_len, fraction_len};

use crate::column::{ByteCount, Layout, Precision};
use crate::decimal::decimal_len;
use crate::number::little;

/// Where a value ends.
#[derive(Clone, Copy)]
pub(crate) enum Extent {
    /// After so many bytes.
    Fixed(usize),
    /// After a length of so many bytes, and as many bytes as it says.
    Prefixed(ByteCount),
}

/// How many bytes a fraction of a second takes.
#[inline(always)]
pub(crate) fn fraction_len(precision: Precision) -> usize
    ensures value { result ≡ fraction_len precision }
    ensures short { result ≤ 3 }
{
    (usize::from(precision.digits) + 1) / 2
}

/// Where the values of a layout end.
#[inline(always)]
pub(crate) fn extent_of(layout: &Layout) -> Extent
    ensures { result ≡ extent_of layout.now }
{
    match layout {
        Layout::Integer(width) => Extent::Fixed(usize::from(width.bytes)),
        Layout::Year => Extent::Fixed(1),
        Layout::Date => Extent::Fixed(3),
        Layout::Text(width) => Extent::Prefixed(*width),
        Layout::Raw(width) => Extent::Prefixed(*width),
        Layout::Float(width) => Extent::Fixed(usize::from(width.bytes)),
        Layout::Bits(width) => Extent::Fixed(usize::from(width.bytes)),
        Layout::Timestamp(precision) => Extent::Fixed(4 + fraction_len(*precision)),
        Layout::DateTime(precision) => Extent::Fixed(5 + fraction_len(*precision)),
        Layout::Time(precision) => Extent::Fixed(3 + fraction_len(*precision)),
        Layout::Decimal(size) => Extent::Fixed(decimal_len(*size)),
        Layout::Enum(size) => Extent::Fixed(usize::from(size.bytes)),
        Layout::Set(width) => Extent::Fixed(usize::from(width.bytes)),
    }
}

/// How many of the bytes the text at the front takes.
#[inline(always)]
#[tactic(auto, unfolding(crate::specs::Extent::extent_len))]
pub(crate) fn extent_len(extent: Extent, bytes: &[u8]) -> Option<usize>
    ensures value { result ≡ extent_len extent bytes.now }
    ensures within { IfSome result (λ n. n ≤ length bytes.now) }
{
    match extent {
        Extent::Fixed(len) => { if len <= bytes.len() { Some(len) } else { None } }
        Extent::Prefixed(width) => {
            let width = usize::from(width.bytes);
            if width > bytes.len() {
                return None;
            }
            let len = little(bytes, width) as usize;
            if len > bytes.len() - width {
                return None;
            }
            Some(width + len)
        }
    }
}
