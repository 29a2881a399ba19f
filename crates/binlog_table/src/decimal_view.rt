//! A decimal where it lies in a body.
ghost use Rattle.std.specs.Prelude.{◌≡◌, ◌≤◌, length, is_some, true};
ghost use Rattle.binlog_table.specs.Decimal.{decimal_len, digits_at, plain};
ghost use Rattle.binlog_table.specs.DecimalDigits.{IsInRange};

use crate::column::DecimalSize;
use crate::decimal::{numbers_of, put_digits};
use crate::digits::Digits;

/// A decimal where it lies in a body: its sign, its digits, and how many of them stand after the point.
#[derive(Clone, Copy)]
pub struct DecimalView<'a> {
    pub(crate) text: &'a [u8],
    pub(crate) precision: u8,
    pub(crate) scale: u8,
    ghost size: { IsInRange (record { precision = precision; scale = scale }) },
    ghost whole: { length text.now ≡ decimal_len precision scale },
    ghost has_digits: { is_some (digits_at precision scale (plain text.now)) ≡ true },
}

impl<'a> DecimalView<'a> {
    ghost use Rattle.std.specs.Prelude.{◌↔◌, IsSome, IfSome};
    ghost use Rattle.binlog_table.specs.DecimalShown.{decimal_view};
    ghost use Rattle.binlog_table.specs.DecimalParts.{IsSplit};

    /// Whether the number is stored as one below zero. A negative zero is, too.
    pub fn is_negative(&self) -> bool
        ensures { result ≡ (decimal_view self.now).negative }
    {
        self.text[0] < 128
    }

    /// How many digits stand after the point.
    pub fn scale(&self) -> usize
        ensures scale { result ≡ (decimal_view self.now).scale }
        ensures within { result ≤ length (decimal_view self.now).digits }
    {
        usize::from(self.scale)
    }

    /// All digits, the highest first: those in front of the point, with leading zeros, then those after it.
    #[inline(always)]
    pub fn digits(&self) -> Digits
        ensures { result ≡ (decimal_view self.now).digits }
    {
        let size = DecimalSize {
            precision: self.precision,
            scale: self.scale,
        };
        let mut digits = Digits::new();
        let _whole = put_digits(size, self.text, &mut digits);
        digits
    }

    /// The number in front of the point and the one behind it, where there are at most 17 digits.
    #[inline(always)]
    pub fn split(&self) -> Option<(u64, u64)>
        ensures few { IsSome result ↔ (length (decimal_view self.now).digits ≤ 17) }
        ensures parts { IfSome result (λ n. IsSplit (decimal_view self.now) n.0 n.1) }
    {
        if self.precision > 17 {
            return None;
        }
        let size = DecimalSize {
            precision: self.precision,
            scale: self.scale,
        };
        numbers_of(size, self.text)
    }
}
