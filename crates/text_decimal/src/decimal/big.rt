//! Natural numbers of at most 4,736 bits, for exact comparisons.

ghost use Rattle.std.specs.Prelude.{◌≡◌, ℕ, ◌+◌, ◌*◌, ◌^◌, ◌<◌, ◌≤◌, length, slice_index};
ghost use Rattle.std.specs.Ordering.{nat_cmp};
ghost use Rattle.text_decimal.specs.decimal.Limbs.{number_below, limb_weight, AreZeroFrom};

use std::cmp::Ordering;
use std::marker::Model;

const LIMBS: usize = 74;

/// A natural number of 64-bit limbs. The lowest limb comes first, and the limbs from `len` on are
/// 0.
#[derive(Drop)]
pub struct Big {
    limbs: [u64; LIMBS],
    len: usize,
}

impl Model for Big {
    ghost Value = { ℕ };

    ghost view = { λ b. number_below b.limbs b.len };

    ghost invariant = { λ b. (b.len ≤ 74) × AreZeroFrom b.limbs b.len };
}

/// Multiplies the first `len` limbs by `by`, adds `add`, and returns the carry.
fn mul_add_limbs(limbs: &mut [u64; LIMBS], len: usize, by: u64, add: u64) -> u64
    requires { len ≤ 74 }
    ensures value { number_below limbs.new len + result * limb_weight len
        ≡ number_below limbs.old len * by + add }
    ensures others { (i : ℕ) → len ≤ i → slice_index limbs.new i ≡ slice_index limbs.old i }
{
    let mut carry = add;
    for i in 0..len {
        let wide = limbs[i] as u128 * by as u128 + carry as u128;
        limbs[i] = (wide & 0xffff_ffff_ffff_ffff) as u64;
        carry = (wide >> 64) as u64;
    }
    carry
}

/// Compares the first `len` limbs of two numbers, starting with the highest.
fn compare_limbs(a: &[u64], b: &[u64], len: usize) -> Ordering
    requires { (len ≤ length a.now) × (len ≤ length b.now) }
    ensures { result ≡ nat_cmp (number_below a.now len) (number_below b.now len) }
{
    let mut i = len;
    while i > 0 {
        i -= 1;
        if a[i] < b[i] {
            return Ordering::Less;
        }
        if a[i] > b[i] {
            return Ordering::Greater;
        }
    }
    Ordering::Equal
}

impl Big {
    pub fn new(n: u64) -> Big
        ensures { result ≡ n }
    {
        let mut big = Big {
            limbs: [0; LIMBS],
            len: 0,
        };
        big.mul_add(1, n);
        big
    }

    /// Multiplies the number by `by` and adds `add`.
    pub fn mul_add(&mut self, by: u64, add: u64)
        requires { self.old * by + add < limb_weight 74 }
        ensures { self.new ≡ self.old * by + add }
    {
        let len = self.len;
        let carry = mul_add_limbs(&mut self.limbs, len, by, add);
        if carry > 0 {
            self.limbs[len] = carry;
            self.len = len + 1;
        }
    }

    pub fn times_ten_to(&mut self, n: u64)
        requires { self.old * 10 ^ n < limb_weight 74 }
        ensures { self.new ≡ self.old * 10 ^ n }
    {
        let mut left = n;
        while left > 19 {
            self.mul_add(10_000_000_000_000_000_000, 0);
            left -= 19;
        }
        self.times_tens(left);
    }

    /// Multiplies the number by ten to the power `n`.
    fn times_tens(&mut self, n: u64)
        requires { self.old * 10 ^ n < limb_weight 74 }
        ensures { self.new ≡ self.old * 10 ^ n }
    {
        let mut left = n;
        while left > 0 {
            self.mul_add(10, 0);
            left -= 1;
        }
    }

    pub fn times_two_to(&mut self, n: u64)
        requires { self.old * 2 ^ n < limb_weight 74 }
        ensures { self.new ≡ self.old * 2 ^ n }
    {
        let mut left = n;
        while left > 63 {
            self.mul_add(1 << 63, 0);
            left -= 63;
        }
        self.mul_add(1 << left, 0);
    }

    pub fn compare(&self, other: &Big) -> Ordering
        ensures { result ≡ nat_cmp self.now other.now }
    {
        compare_limbs(&self.limbs, &other.limbs, self.len.max(other.len))
    }
}
