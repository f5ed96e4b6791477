//! Finds the greatest power of the decimals that read as a double.

ghost use Rattle.std.specs.Prelude.{ℕ, ◌+◌, ◌<◌, MatchOption};
ghost use Rattle.text_decimal.specs.decimal.Doubles.{IsNearest, Reads, IsHighest};

use crate::decimal::reads::reads;
use crate::decimal::size::Size;

/// Returns the digits of a decimal with the power `power + 1` that reads as the double, or `None`
/// if there is no such decimal.
fn higher(size: Size, digits: u64, power: u64) -> Option<u64>
    requires reads { Reads size.bits digits power }
    ensures { MatchOption result
        ((other : ℕ) → 0 < other → ¬ IsNearest size.bits other (power + 1))
        (λ next. Reads size.bits next (power + 1)) }
{
    let below = digits / 10;
    if reads(size, below, power + 1) {
        Some(below)
    } else if reads(size, below + 1, power + 1) {
        Some(below + 1)
    } else {
        None
    }
}

/// Returns a decimal with the greatest power among the decimals that read as a double. The decimal
/// `digits`, `power` must read as the double.
pub fn raised(size: Size, digits: u64, power: u64) -> (u64, u64)
    requires reads { Reads size.bits digits power }
    ensures reads { Reads size.bits result.0 result.1 }
    ensures highest { IsHighest size.bits result.1 }
{
    let mut digits = digits;
    let mut power = power;
    while let Some(next) = higher(size, digits, power) {
        digits = next;
        power += 1;
    }
    (digits, power)
}
