//! Reads decimals in a text.

ghost use Rattle.std.specs.Prelude.{◌≡◌, ◌≤◌, true, length, IfSome};
ghost use Rattle.text_decimal.specs.decimal.DecimalReading.{begins_with_minus, is_decimal};
ghost use Rattle.text_decimal.specs.decimal.DecimalReading.{decimal_at};

use fast_float::Numeral;

/// Returns true if the text begins with a minus.
fn begins_with_minus(text: &[u8]) -> bool
    ensures value { result ≡ begins_with_minus text.now }
    ensures some { result ≡ true → 1 ≤ length text.now }
{
    match text {
        [first, ..] => *first == b'-',
        [] => false,
    }
}

/// Returns true if the numeral is a decimal. A decimal has digits before the point, and has a point
/// or an exponent.
fn is_decimal(numeral: &Numeral<'_>) -> bool
    ensures { result ≡ is_decimal numeral.now }
{
    !numeral.whole().is_empty() && (numeral.has_point() || !numeral.exponent().is_empty())
}

/// Reads the decimal at the beginning of a text. Returns the bits of the nearest double, which may
/// be infinite, and the decimal's length in bytes. If the text does not begin with a decimal,
/// returns `None`.
pub fn read_decimal(text: &[u8]) -> Option<(u64, usize)>
    ensures value { result ≡ decimal_at text.now }
    ensures within { IfSome result (λ r. r.1 ≤ length text.now) }
{
    let negative = begins_with_minus(text);
    let minus = usize::from(negative);
    let numeral = Numeral::scan(&text[minus..]);
    if !is_decimal(&numeral) {
        return None;
    }
    let double: f64 = numeral.to_float(negative);
    Some((double.to_bits(), minus + numeral.len()))
}
