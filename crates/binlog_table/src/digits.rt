//! The digits of a decimal.
ghost use Rattle.std.specs.Prelude.{◌≡◌, ◌<◌, ◌≤◌, ◌+◌, ◌++◌, [], length, take};
ghost use Rattle.std.specs.List.{All};
ghost use Rattle.binlog_table.specs.Decimal.{digits_of};

use std::marker::Model;

/// The digits of a decimal, the highest first: at most 65 numbers from 0 to 9.
#[derive(Drop)]
pub struct Digits {
    digits: [u8; 65],
    len: usize,
}

impl Model for Digits {
    ghost use Rattle.std.specs.Prelude.{ℕ, ◌≤◌, ◌<◌, List, take};
    ghost use Rattle.std.specs.List.{All};

    ghost Value = { List ℕ };

    ghost view = { λ d. take d.len d.digits };

    ghost invariant = { λ d. (d.len ≤ 65) × All (λ x. x < 10) (take d.len d.digits) };
}

/// Writes the last digits of a number from a place on.
#[inline(always)]
fn write_digits(digits: &mut [u8; 65], start: usize, len: usize, number: u64)
    requires { start + len ≤ 65 }
    ensures { take (start + len) digits.new ≡ take start digits.old ++ digits_of len number }
{
    let mut left = number;
    let mut place = len;
    while place > 0 {
        place -= 1;
        digits[start + place] = (left % 10) as u8;
        left /= 10;
    }
}

impl Digits {
    /// No digits.
    #[inline(always)]
    pub(crate) fn new() -> Digits
        ensures { result ≡ [] }
    {
        Digits {
            digits: [0; 65],
            len: 0,
        }
    }

    /// Appends the last digits of a number.
    #[inline(always)]
    pub(crate) fn push_number(&mut self, len: usize, number: u64)
        requires { length self.old + len ≤ 65 }
        ensures { self.new ≡ self.old ++ digits_of len number }
    {
        write_digits(&mut self.digits, self.len, len, number);
        self.len += len;
    }

    /// The digits, the highest first.
    #[inline(always)]
    pub fn as_slice(&self) -> &[u8]
        ensures value { result.now ≡ self.now }
        ensures small { All (λ x. x < 10) result.now }
        ensures few { length result.now ≤ 65 }
    {
        &self.digits[..self.len]
    }
}
