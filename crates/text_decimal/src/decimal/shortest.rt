//! Finds the shortest decimal that reads as a double.

ghost use Rattle.std.specs.Prelude.{MatchOption};
ghost use Rattle.text_decimal.specs.decimal.Doubles.{HasNone, IsShortest};

use crate::decimal::decimal_search::some_decimal;
use crate::decimal::nearest::nearest;
use crate::decimal::raised::raised;
use crate::decimal::size::Size;

/// Returns the digits and the power of the shortest decimal of a double, or `None` if no decimal of
/// at most 19 digits reads as the double.
pub fn shortest(size: Size) -> Option<(u64, u64)>
    ensures { MatchOption result (HasNone size.bits) (λ d. IsShortest size.bits d.0 d.1) }
{
    let (digits, power) = some_decimal(size)?;
    let (digits, power) = raised(size, digits, power);
    Some((nearest(size, digits, power), power))
}
