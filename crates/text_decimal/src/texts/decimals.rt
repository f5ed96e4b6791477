//! The decimals in a text, and the mapping of offsets in the plain text to offsets in the text.

ghost use Rattle.std.specs.Prelude.{◌≡◌, ◌<◌, ◌^◌};
ghost use Rattle.text_decimal.specs.texts.PlainTexts.{AreWithin, given_position};

/// A decimal that denotes a double: the offset of its first byte, its length in bytes, and the bits
/// of the double.
#[derive(Clone, Copy)]
pub struct Decimal {
    pub first: usize,
    pub len: usize,
    pub bits: u64,
}

/// Returns the offset in a text, given the text's decimals and an offset in the plain text. The
/// offset may be the end of the plain text.
pub fn given_position(decimals: &[Decimal], byte: usize) -> usize
    requires within { AreWithin 0 decimals.now (2 ^ 63) }
    requires small { byte < 2 ^ 63 }
    ensures { result ≡ given_position decimals.now byte }
{
    let mut at = 0;
    let mut plain = 0;
    for decimal in decimals {
        let begins = plain + (decimal.first - at);
        if byte < begins {
            return at + (byte - plain);
        }
        if byte < begins + 17 {
            return decimal.first;
        }
        at = decimal.first + decimal.len;
        plain = begins + 17;
    }
    at + (byte - plain)
}
