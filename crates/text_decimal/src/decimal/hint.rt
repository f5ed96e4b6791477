//! A first guess of the digits of a decimal. Nothing is proved about the guess, which is tested
//! afterwards.

use crate::decimal::reads::BIAS;
use crate::decimal::size::Size;
use fast_float::Numeral;
use ryu::Buffer;

/// Appends decimal digits to a number. If the number overflows, wraps around.
fn with_digits(number: u64, digits: &[u8]) -> u64 {
    let mut all = number;
    for digit in digits {
        all = all
            .wrapping_mul(10)
            .wrapping_add(u64::from(digit.wrapping_sub(b'0')));
    }
    all
}

/// Returns the digits and the power of a numeral.
fn decimal_of(numeral: &Numeral<'_>) -> (u64, u64) {
    let fraction = numeral.fraction();
    let digits = with_digits(with_digits(0, numeral.whole()), fraction);
    let exponent = with_digits(0, numeral.exponent());
    let power = if numeral.is_exponent_negative() {
        BIAS.wrapping_sub(exponent)
    } else {
        BIAS.wrapping_add(exponent)
    };
    (digits, power.wrapping_sub(fraction.len() as u64))
}

/// Returns a decimal that should read as the double with the given size. Uses the formatter of the
/// library.
pub fn hint(size: Size) -> (u64, u64) {
    let double = f64::from_bits(size.bits);
    let mut buffer = Buffer::new();
    decimal_of(&Numeral::scan(buffer.format(double).as_bytes()))
}
