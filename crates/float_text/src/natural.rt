//! A natural number of a bounded size, for one exact comparison.
ghost use Rattle.std.specs.Prelude.{◌≡◌, ℕ, ◌+◌, ◌*◌, ◌^◌, ◌<◌, ◌≤◌, length, slice_index};
ghost use Rattle.std.specs.Ordering.{nat_cmp};
ghost use Rattle.float_text.specs.Limbs.{number_in, weight, AreZeroFrom};

use std::cmp::Ordering;
use std::marker::Model;

const LIMBS: usize = 36;

/// A natural number below 2 ^ 2304.
#[derive(Drop)]
pub(crate) struct Natural {
    /// Digits to the base 2 ^ 64, the lowest first.
    limbs: [u64; LIMBS],
    /// All from this index on are 0.
    len: usize,
}

impl Model for Natural {
    ghost Value = { ℕ };

    ghost view = { λ n. number_in n.limbs n.len };

    ghost invariant = { λ n. (0 < n.len) × (n.len ≤ 36) × AreZeroFrom n.limbs n.len };
}

/// Multiplies the first limbs, and returns what is carried out of them.
fn multiply(limbs: &mut [u64; LIMBS], len: usize, factor: u64) -> u64
    requires { len ≤ 36 }
    ensures value { number_in limbs.new len + result * weight len ≡ number_in limbs.old len * factor }
    ensures others { (i : ℕ) → len ≤ i → slice_index limbs.new i ≡ slice_index limbs.old i }
{
    let mut carry = 0;
    for i in 0..len {
        let wide = limbs[i] as u128 * factor as u128 + carry as u128;
        limbs[i] = (wide & 0xffff_ffff_ffff_ffff) as u64;
        carry = (wide >> 64) as u64;
    }
    carry
}

/// Compares the numbers in the first limbs, from the highest limb down.
fn compare(a: &[u64], b: &[u64], len: usize) -> Ordering
    requires { (len ≤ length a.now) × (len ≤ length b.now) }
    ensures { result ≡ nat_cmp (number_in a.now len) (number_in b.now len) }
{
    let mut i = len;
    while i > 0 {
        i -= 1;
        if a[i] < b[i] {
            return Ordering::Less;
        }
        if a[i] > b[i] {
            return Ordering::Greater;
        }
    }
    Ordering::Equal
}

impl Natural {
    pub(crate) fn new(number: u64) -> Natural
        ensures { result ≡ number }
    {
        let mut limbs = [0; LIMBS];
        limbs[0] = number;
        Natural { limbs, len: 1 }
    }

    fn times(&mut self, factor: u64)
        requires { self.old * factor < weight 36 }
        ensures { self.new ≡ self.old * factor }
    {
        let len = self.len;
        let carry = multiply(&mut self.limbs, len, factor);
        if carry > 0 {
            self.limbs[len] = carry;
            self.len = len + 1;
        }
    }

    /// Multiplies by a power, of which `step` factors fit one limb.
    pub(crate) fn times_power(&mut self, base: u64, step: u32, exponent: u64)
        requires base { (0 < base) × (base ^ step < 2 ^ 64) × (0 < step) }
        requires room { self.old * base ^ exponent < weight 36 }
        ensures { self.new ≡ self.old * base ^ exponent }
    {
        let factor = base.pow(step);
        let mut left = exponent;
        while left > step as u64 {
            self.times(factor);
            left -= step as u64;
        }
        self.times(base.pow(left as u32));
    }

    pub(crate) fn compare(&self, other: &Natural) -> Ordering
        ensures { result ≡ nat_cmp self.now other.now }
    {
        compare(&self.limbs, &other.limbs, self.len.max(other.len))
    }
}
