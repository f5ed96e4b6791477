//! Decides whether a decimal reads as a double.

ghost use Rattle.std.specs.Prelude.{◌≡◌, true, false};
ghost use Rattle.text_decimal.specs.decimal.Doubles.{Reads};

use crate::decimal::size::Size;
use fast_float::nearest_bits;

/// The size of infinity: the bits of infinity without the sign.
pub const INFINITE: u64 = 0x7ff0_0000_0000_0000;

/// The bias of powers: a decimal denotes digits * 10 ^ (power - BIAS).
pub const BIAS: u64 = 342;

/// The least power of which each decimal reads as infinity.
pub const POWERS: u64 = 651;

/// The least number with more than 19 digits.
pub const TOO_MANY: u64 = 10_000_000_000_000_000_000;

/// Returns true if a decimal of at most 19 digits reads as the double with the given size.
#[inline]
pub fn reads(size: Size, digits: u64, power: u64) -> bool
    ensures so { result ≡ true → Reads size.bits digits power }
    ensures not { result ≡ false → ¬ Reads size.bits digits power }
{
    if digits == 0 || digits >= TOO_MANY || power >= POWERS {
        return false;
    }
    nearest_bits::<f64>(digits, power) == size.bits
}
