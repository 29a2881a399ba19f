//! The layout of a float's text, from its digits and their power, in room that is there before.
ghost use Rattle.std.specs.Prelude.{◌≡◌, ◌+◌, ◌<◌, ◌≤◌, ◌^◌, ◌++◌, ◌∷◌, [], length};
ghost use Rattle.json.specs.Filled.{Placed};
ghost use Rattle.float_text.specs.Layout.{pointed_text, whole_text, small_text, mantissa_text, exponent_digits, exponent_text, layout};

use itoa::Buffer;

const ZEROS: &[u8; 16] = b"0000000000000000";

/// Puts a text to a place. Where it ends.
#[inline(always)]
pub(crate) fn put(room: &mut [u8], at: usize, text: &[u8]) -> usize
    requires { at + length text.now ≤ length room.old }
    ensures { Placed room.old room.new at text.now result }
{
    let end = at + text.len();
    room[at..end].copy_from_slice(text);
    end
}

/// Digits in front of the point and behind it.
fn put_pointed(room: &mut [u8], at: usize, digits: &[u8], place: usize) -> usize
    requires place { (400 ≤ place) × (place ≤ 400 + length digits.now) }
    requires room { at + length digits.now + 1 ≤ length room.old }
    ensures { Placed room.old room.new at (pointed_text digits.now place) result }
{
    let point = put(room, at, &digits[..place - 400]);
    let fraction = put(room, point, b".");
    put(room, fraction, &digits[place - 400..])
}

/// All digits in front of the point.
fn put_whole(room: &mut [u8], at: usize, digits: &[u8], power: usize) -> usize
    requires power { (400 ≤ power) × (power ≤ 416) }
    requires room { at + length digits.now + 18 ≤ length room.old }
    ensures { Placed room.old room.new at (whole_text digits.now power) result }
{
    let zeros = put(room, at, digits);
    let point = put(room, zeros, &ZEROS[..power - 400]);
    put(room, point, b".0")
}

/// All digits behind the point.
fn put_small(room: &mut [u8], at: usize, digits: &[u8], place: usize) -> usize
    requires place { (396 < place) × (place ≤ 400) }
    requires room { at + length digits.now + 6 ≤ length room.old }
    ensures { Placed room.old room.new at (small_text digits.now place) result }
{
    let zeros = put(room, at, b"0.");
    let first = put(room, zeros, &ZEROS[..400 - place]);
    put(room, first, digits)
}

/// One digit in front of the point.
fn put_mantissa(room: &mut [u8], at: usize, digits: &[u8]) -> usize
    requires some { 0 < length digits.now }
    requires room { at + length digits.now + 1 ≤ length room.old }
    ensures { Placed room.old room.new at (mantissa_text digits.now) result }
{
    let point = put(room, at, &digits[..1]);
    if digits.len() == 1 {
        return point;
    }
    let fraction = put(room, point, b".");
    put(room, fraction, &digits[1..])
}

/// The size of an exponent, in two digits at least.
fn put_exponent_digits(room: &mut [u8], at: usize, exponent: usize) -> usize
    requires { at + 41 ≤ length room.old }
    ensures { Placed room.old room.new at (exponent_digits exponent) result }
{
    let mut buffer = Buffer::new();
    let digits = buffer.format(exponent).as_bytes();
    if exponent < 10 {
        let one = put(room, at, b"0");
        return put(room, one, digits);
    }
    put(room, at, digits)
}

/// The exponent, with its sign.
fn put_exponent(room: &mut [u8], at: usize, place: usize) -> usize
    requires place { place < 2 ^ 20 }
    requires room { at + 43 ≤ length room.old }
    ensures { Placed room.old room.new at (exponent_text place) result }
{
    if place > 400 {
        let digits = put(room, at, b"e+");
        put_exponent_digits(room, digits, place - 401)
    } else {
        let digits = put(room, at, b"e-");
        put_exponent_digits(room, digits, 401 - place)
    }
}

/// The text of digits * 10 ^ (power - 400).
#[inline(always)]
pub(crate) fn put_layout(room: &mut [u8], at: usize, digits: &[u8], power: usize) -> usize
    requires sizes { (0 < length digits.now) × (length digits.now ≤ 40) × (power ≤ 709) }
    requires room { at + 84 ≤ length room.old }
    ensures { Placed room.old room.new at (layout digits.now power) result }
{
    let place = digits.len() + power;
    if place > 400 && place < 417 {
        if power < 400 {
            put_pointed(room, at, digits, place)
        } else {
            put_whole(room, at, digits, power)
        }
    } else if place > 396 && place < 401 {
        put_small(room, at, digits, place)
    } else {
        let exponent = put_mantissa(room, at, digits);
        put_exponent(room, exponent, place)
    }
}
