//! Finds the nearest decimal among the decimals with one power that read as a double.

ghost use Rattle.std.specs.Prelude.{◌≡◌, ◌*◌, ◌+◌, ◌-◌, ◌<◌, ◌^◌, true, false};
ghost use Rattle.std.specs.Ordering.{nat_cmp};
ghost use Rattle.text_decimal.specs.decimal.Doubles.{Reads, units_of, double_units, decimal_units};
ghost use Rattle.text_decimal.specs.decimal.Doubles.{IsNoBetterAbove, IsNoBetterBelow};

use crate::decimal::big::Big;
use crate::decimal::reads::{BIAS, reads};
use crate::decimal::size::Size;
use std::cmp::Ordering;

/// Returns the significand of a double as an integer, and the exponent of the power of two by which
/// the significand is multiplied.
fn parts_of(size: Size) -> (u64, u64)
    ensures value { result.0 * 2 ^ result.1 ≡ units_of size.bits }
    ensures small { (result.0 < 2 ^ 53) × (result.1 < 2046) }
{
    let field = size.bits >> 52;
    if field == 0 {
        return (size.bits, 0);
    }
    ((1 << 52) + (size.bits & ((1 << 52) - 1)), field - 1)
}

/// Compares a double with the decimal halfway between `digits` and `digits + 1`. Both compared
/// numbers are doubled.
fn against_halfway(size: Size, digits: u64, power: u64) -> Ordering
    requires small { power < 651 }
    ensures { result
        ≡ nat_cmp (2 * double_units size.bits power) (decimal_units (2 * digits + 1) power) }
{
    let (significand, exponent) = parts_of(size);
    let mut double = Big::new(significand);
    double.times_two_to(exponent + 1);
    double.times_ten_to(BIAS.saturating_sub(power));
    let mut decimal = Big::new(digits);
    decimal.mul_add(2, 1);
    decimal.times_ten_to(power.saturating_sub(BIAS));
    decimal.times_two_to(1074);
    double.compare(&decimal)
}

/// Returns true if `digits + 1` is a better choice than `digits`.
fn is_better_above(size: Size, digits: u64, power: u64) -> bool
    requires reads { Reads size.bits digits power }
    ensures so { result ≡ true → Reads size.bits (digits + 1) power }
    ensures not { result ≡ false → IsNoBetterAbove size.bits digits power }
{
    if !reads(size, digits + 1, power) {
        return false;
    }
    match against_halfway(size, digits, power) {
        Ordering::Less => false,
        Ordering::Equal => digits % 2 == 1,
        Ordering::Greater => true,
    }
}

/// Returns true if `digits - 1` is at least as good a choice as `digits`.
fn is_better_below(size: Size, digits: u64, power: u64) -> bool
    requires reads { Reads size.bits digits power }
    ensures so { result ≡ true → Reads size.bits (digits - 1) power }
    ensures turned { result ≡ true → IsNoBetterAbove size.bits (digits - 1) power }
    ensures not { result ≡ false → IsNoBetterBelow size.bits digits power }
{
    if !reads(size, digits - 1, power) {
        return false;
    }
    match against_halfway(size, digits - 1, power) {
        Ordering::Less => true,
        Ordering::Equal => digits % 2 == 1,
        Ordering::Greater => false,
    }
}

/// Increments the digits as long as the incremented digits are better.
fn up(size: Size, digits: u64, power: u64) -> u64
    requires reads { Reads size.bits digits power }
    ensures reads { Reads size.bits result power }
    ensures above { IsNoBetterAbove size.bits result power }
{
    let mut digits = digits;
    while is_better_above(size, digits, power) {
        digits += 1;
    }
    digits
}

/// Decrements the digits as long as the decremented digits are better.
fn down(size: Size, digits: u64, power: u64) -> u64
    requires reads { Reads size.bits digits power }
    requires above { IsNoBetterAbove size.bits digits power }
    ensures reads { Reads size.bits result power }
    ensures above { IsNoBetterAbove size.bits result power }
    ensures below { IsNoBetterBelow size.bits result power }
{
    let mut digits = digits;
    while is_better_below(size, digits, power) {
        digits -= 1;
    }
    digits
}

/// Returns the digits of the decimal that is nearest to a double among the decimals with the power
/// `power`. The decimal `digits`, `power` must read as the double.
pub fn nearest(size: Size, digits: u64, power: u64) -> u64
    requires reads { Reads size.bits digits power }
    ensures reads { Reads size.bits result power }
    ensures above { IsNoBetterAbove size.bits result power }
    ensures below { IsNoBetterBelow size.bits result power }
{
    down(size, up(size, digits, power), power)
}
