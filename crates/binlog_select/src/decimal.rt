//! Numbers in decimal digits.

ghost use Rattle.std.specs.Prelude.{◌≡◌, ◌+◌, ◌-◌, ◌*◌, ◌<◌, ◌≤◌, ◌^◌, ◌++◌, SomeIff, MatchOption, decimal, string_bytes, OnOk, OnErr};
ghost use Rattle.binlog_select.specs.Decimal.{IsNoDecimal, number_of};

use std::alloc::AllocError;

/// The number that one digit or more write, leading zeros aside, where it is below 2^64.
pub(crate) fn number(digits: &[u8]) -> Option<u64>
    ensures { result ≡ number_of digits.now }
{
    if digits.is_empty() {
        return None;
    }
    let mut value = 0;
    for digit in digits {
        if !digit.is_ascii_digit() {
            return None;
        }
        let Some(next) = with_digit(value, *digit) else {
            return None;
        };
        value = next;
    }
    Some(value)
}

/// The number whose digits are those of `value` and one more, where it is below 2^64.
fn with_digit(value: u64, digit: u8) -> Option<u64>
    requires low { 48 ≤ digit }
    requires high { digit ≤ 57 }
    ensures { SomeIff result (value * 10 + (digit - 48) < 2 ^ 64) (value * 10 + (digit - 48)) }
{
    value.checked_mul(10)?.checked_add(u64::from(digit - b'0'))
}

/// The number that a text writes without leading zeros.
pub(crate) fn plain_number(digits: &[u8]) -> Option<u64>
    ensures { MatchOption result (IsNoDecimal digits.now) (λ n. digits.now ≡ decimal n) }
{
    if digits.len() > 1 && digits[0] == b'0' {
        return None;
    }
    number(digits)
}

/// Appends a number in decimal digits, without leading zeros: all of it, or nothing where a growth was refused.
#[inline(always)]
pub fn push_number(text: &mut String, n: u64) -> Result<(), AllocError>
    ensures ok { OnOk result (string_bytes text.new ≡ string_bytes text.old ++ decimal n) }
    ensures err { OnErr result (string_bytes text.new ≡ string_bytes text.old) }
{
    let mut buffer = itoa::Buffer::new();
    text.push_str(buffer.format(n))
}
