//! The text of a finite float, by its bits.
ghost use Rattle.std.specs.Prelude.{◌≡◌, ◌*◌, ◌%◌, ◌<◌, ◌≤◌, ◌+◌, ◌++◌, true, length, IfOk, IsAscii};
ghost use Rattle.std.specs.Float.Ieee.{top, ones, hid};
ghost use Rattle.json.specs.Filled.{Placed};
ghost use Rattle.json.specs.Print.{IsNumber};
ghost use Rattle.float_text.specs.JsonSizes.{IsJsonSize};
ghost use Rattle.float_text.specs.Closest.{IsCoarsest, HasFewestDigits, IsClosestAbove, IsClosestBelow};
ghost use Rattle.float_text.specs.Shortest.{IsFinite, reads_as, shortest};
ghost use Rattle.float_text.specs.Layout.{size_text, number_text};

use crate::candidate::candidate;
use crate::layout::{put, put_layout};
use crate::search::shortest_from;
use itoa::Buffer;
use ryu::Float;
use std::alloc::{AllocError, Global};

/// The digits of the shortest decimal, and its power plus 400: the greatest power at which a decimal reads back, and the digits at
/// it that are the closest. No decimal that reads back has fewer digits.
pub fn shortest_decimal<F: Float>(bits: u64) -> (u64, u64)
    requires { IsFinite F.format bits }
    ensures same { result ≡ shortest F.format bits }
    ensures reads { reads_as F.format bits result.0 result.1 ≡ true }
    ensures coarsest { IsCoarsest F.format bits result.1 }
    ensures closest_above { IsClosestAbove F.format bits result.0 result.1 }
    ensures closest_below { IsClosestBelow F.format bits result.0 result.1 }
    ensures fewest { HasFewestDigits F.format bits result.0 }
    ensures power { result.1 ≤ 708 }
{
    let (digits, power) = candidate::<F>(bits);
    shortest_from::<F>(bits, digits, power)
}

/// How many bytes a number's text has to find behind its place.
pub const NUMBER_ROOM: usize = 96;

/// Appends the text of a finite float, which is a function of its bits alone.
pub fn push_number<F: Float>(out: &mut Vec<u8, Global>, bits: u64) -> Result<(), AllocError>
    requires width { bits < 2 * top F.format }
    requires finite { bits % top F.format < ones F.format * hid F.format }
    ensures text { IfOk result (λ _. out.new.items ≡ out.old.items ++ number_text F.format bits) }
    ensures json { IfOk result (λ _. IsNumber (number_text F.format bits)) }
    ensures ascii { IfOk result (λ _. IsAscii out.old.items → IsAscii out.new.items) }
{
    let mut room = [0; NUMBER_ROOM];
    let end = put_number::<F>(&mut room, 0, bits);
    out.extend_from_slice(&room[..end])
}

/// Puts the text of a finite float to a place, behind which there is room for `NUMBER_ROOM` bytes. Where it ends.
pub fn put_number<F: Float>(room: &mut [u8], at: usize, bits: u64) -> usize
    requires width { bits < 2 * top F.format }
    requires finite { bits % top F.format < ones F.format * hid F.format }
    requires room { at + 96 ≤ length room.old }
    ensures text { Placed room.old room.new at (number_text F.format bits) result }
    ensures json { IsNumber (number_text F.format bits) }
    ensures ascii { IsAscii (number_text F.format bits) }
{
    if bits >= F::SIGN_BIT {
        let size = put(room, at, b"-");
        put_size::<F>(room, size, bits - F::SIGN_BIT)
    } else {
        put_size::<F>(room, at, bits)
    }
}

/// The text of a float with no sign.
fn put_size<F: Float>(room: &mut [u8], at: usize, bits: u64) -> usize
    requires finite { bits < ones F.format * hid F.format }
    requires room { at + 84 ≤ length room.old }
    ensures text { Placed room.old room.new at (size_text F.format bits) result }
    ensures json { IsJsonSize (size_text F.format bits) }
    ensures ascii { IsAscii (size_text F.format bits) }
{
    if bits == 0 {
        return put(room, at, b"0.0");
    }
    let (digits, power) = shortest_decimal::<F>(bits);
    let mut buffer = Buffer::new();
    put_layout(room, at, buffer.format(digits).as_bytes(), power as usize)
}
