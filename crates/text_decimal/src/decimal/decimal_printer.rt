//! Prints doubles.

ghost use Rattle.std.specs.Prelude.{◌≡◌, ◌<◌, ◌^◌, ◌++◌, OnOk, codes};
ghost use Rattle.std.specs.Fmt.{sign_text};
ghost use Rattle.text_decimal.specs.decimal.Doubles.{is_negative};
ghost use Rattle.text_decimal.specs.decimal.Layout.{size_text};
ghost use Rattle.text_decimal.specs.decimal.Shortest.{double_text};

use crate::decimal::decimal_text::write_size;
use crate::decimal::reads::INFINITE;
use crate::decimal::shortest::shortest;
use crate::decimal::size::Size;
use base_data::model::Memory;
use base_data::text::write;
use text_print::leaves::write_float;

/// The sign bit of a double.
const SIGN: u64 = 1 << 63;

/// Appends a minus if the double is negative.
fn write_sign(text: &mut Vec<u8>, bits: u64) -> Result<(), Memory>
    ensures { OnOk result (text.new.items ≡ text.old.items ++ sign_text (is_negative bits)) }
{
    write(text, if bits >= SIGN { b"-" } else { b"" })
}

/// Appends a zero with the sign of the double.
fn write_zero(text: &mut Vec<u8>, bits: u64) -> Result<(), Memory>
    ensures { OnOk result (text.new.items
        ≡ text.old.items ++ (sign_text (is_negative bits) ++ codes "0.")) }
{
    write_sign(text, bits)?;
    write(text, b"0.")
}

/// Appends a decimal with the sign of a double.
fn write_signed(text: &mut Vec<u8>, bits: u64, digits: u64, power: u64) -> Result<(), Memory>
    requires { (digits < 10 ^ 19) × (power < 651) }
    ensures { OnOk result (text.new.items
        ≡ text.old.items ++ (sign_text (is_negative bits) ++ size_text digits power)) }
{
    write_sign(text, bits)?;
    write_size(text, digits, power)
}

/// Appends the text of a double. A finite double is printed as its shortest decimal, and any other
/// double is printed by its bits.
pub fn write_double(text: &mut Vec<u8>, bits: u64) -> Result<(), Memory>
    ensures { OnOk result (text.new.items ≡ text.old.items ++ double_text bits) }
{
    let size = bits % SIGN;
    if size == 0 {
        return write_zero(text, bits);
    }
    if size >= INFINITE {
        return write_float(text, bits);
    }
    match shortest(Size { bits: size }) {
        Some((digits, power)) => write_signed(text, bits, digits, power),
        None => write_float(text, bits),
    }
}
