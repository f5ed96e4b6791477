//! The text of a decimal.

ghost use Rattle.std.specs.Prelude.{◌≡◌, ◌++◌, ◌<◌, ◌≤◌, ◌∷◌, length, OnOk, decimal};
ghost use Rattle.std.specs.Fmt.{sign_text};
ghost use Rattle.text_decimal.specs.decimal.Layout.{zeros, pointed, scientific, placed, size_text};

use base_data::model::Memory;
use base_data::text::write;
use itoa::Buffer;

/// Appends `count` zeros.
fn write_zeros(text: &mut Vec<u8>, count: usize) -> Result<(), Memory>
    requires { count ≤ 16 }
    ensures { OnOk result (text.new.items ≡ text.old.items ++ zeros count) }
{
    let all = [b'0'; 16];
    write(text, &all[..count])
}

/// Appends digits with a decimal point after the first `count` digits. If there are fewer than
/// `count` digits, zeros fill the gap.
fn write_pointed(text: &mut Vec<u8>, digits: &[u8], count: usize) -> Result<(), Memory>
    requires { count ≤ 16 }
    ensures { OnOk result (text.new.items ≡ text.old.items ++ pointed digits.now count) }
{
    let whole = count.min(digits.len());
    write(text, &digits[..whole])?;
    write_zeros(text, count - whole)?;
    write(text, b".")?;
    write(text, &digits[whole..])
}

/// Appends an exponent: the letter `e`, the sign and the digits.
fn write_exponent(text: &mut Vec<u8>, negative: bool, exponent: u64) -> Result<(), Memory>
    ensures { OnOk result (text.new.items
        ≡ text.old.items ++ 101 ∷ (sign_text negative ++ decimal exponent)) }
{
    write(text, if negative { b"e-" } else { b"e" })?;
    write(text, Buffer::new().format(exponent).as_bytes())
}

/// Appends the first digit, the later digits after a decimal point, and the exponent.
fn write_scientific(
    text: &mut Vec<u8>,
    digits: &[u8],
    negative: bool,
    exponent: u64,
) -> Result<(), Memory>
    requires { 0 < length digits.now }
    ensures { OnOk result (text.new.items
        ≡ text.old.items ++ scientific digits.now negative exponent) }
{
    write(text, &digits[..1])?;
    if digits.len() > 1 {
        write(text, b".")?;
        write(text, &digits[1..])?;
    }
    write_exponent(text, negative, exponent)
}

/// Appends digits with the decimal point after digit number `position` - 342. Uses an exponent if
/// the number is very large or very small.
fn write_placed(text: &mut Vec<u8>, digits: &[u8], position: u64) -> Result<(), Memory>
    requires { 0 < length digits.now }
    ensures { OnOk result (text.new.items ≡ text.old.items ++ placed digits.now position) }
{
    if position < 338 {
        write_scientific(text, digits, true, 343 - position)
    } else if position <= 342 {
        write(text, b"0.")?;
        write_zeros(text, (342 - position) as usize)?;
        write(text, digits)
    } else if position <= 358 {
        write_pointed(text, digits, (position - 342) as usize)
    } else {
        write_scientific(text, digits, false, position - 343)
    }
}

/// Appends the text of the decimal with given digits and a given power.
#[tactic(auto, using(std::proofs::lemmas::Fmt::decimal_nonempty))]
pub fn write_size(text: &mut Vec<u8>, digits: u64, power: u64) -> Result<(), Memory>
    requires { power < 651 }
    ensures { OnOk result (text.new.items ≡ text.old.items ++ size_text digits power) }
{
    let mut buffer = Buffer::new();
    let written = buffer.format(digits).as_bytes();
    write_placed(text, written, written.len() as u64 + power)
}
