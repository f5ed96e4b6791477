//! Searches for a decimal that reads as a double, if the guessed decimal does not read as the
//! double.

ghost use Rattle.std.specs.Prelude.{ℕ, ◌+◌, ◌<◌, ◌≤◌, ◌^◌, MatchOption};
ghost use Rattle.text_decimal.specs.decimal.Doubles.{IsNearest, Reads, HasNone};

use crate::decimal::hint::hint;
use crate::decimal::reads::{POWERS, TOO_MANY, reads};
use crate::decimal::size::Size;
use fast_float::nearest_bits;

/// Returns the least digits whose decimal with the power `power` reads as a double of at least the
/// given size. If there are no such digits, returns the greatest digits.
fn least_digits(size: u64, power: u64) -> u64
    requires { power < 651 }
    ensures range { (0 < result) × (result < 10 ^ 19) }
    ensures least { (digits : ℕ) → 0 < digits → digits < result → (other : ℕ)
        → IsNearest other digits power → other < size }
    ensures reaches { result + 1 < 10 ^ 19 → (other : ℕ)
        → IsNearest other result power → size ≤ other }
{
    let mut low = 1;
    let mut high = TOO_MANY - 1;
    while low < high {
        let middle = low + (high - low) / 2;
        if nearest_bits::<f64>(middle, power) < size {
            low = middle + 1;
        } else {
            high = middle;
        }
    }
    low
}

/// Searches all powers for a decimal that reads as the double with the given size. No input is
/// known that needs this search.
#[cold]
#[inline(never)]
fn search(size: Size) -> Option<(u64, u64)>
    ensures { MatchOption result (HasNone size.bits) (λ d. Reads size.bits d.0 d.1) }
{
    for power in 0..POWERS {
        let digits = least_digits(size.bits, power);
        if nearest_bits::<f64>(digits, power) == size.bits {
            return Some((digits, power));
        }
    }
    None
}

/// Returns a decimal that reads as the double with the given size, or `None` if there is no such
/// decimal.
pub fn some_decimal(size: Size) -> Option<(u64, u64)>
    ensures { MatchOption result (HasNone size.bits) (λ d. Reads size.bits d.0 d.1) }
{
    let (digits, power) = hint(size);
    if reads(size, digits, power) {
        return Some((digits, power));
    }
    search(size)
}
