//! The plain text that a text with decimals denotes.

ghost use Rattle.std.specs.Prelude.{◌≡◌, ◌++◌, OnOk, length};
ghost use Rattle.text_decimal.specs.texts.PlainTexts.{plain_with, AreWithin};

use crate::texts::decimals::Decimal;
use base_data::model::Memory;
use base_data::text::write;
use text_print::leaves::write_float;

/// Appends a text in which each of the decimals `decimals` is replaced by the bits of its double.
pub fn write_plain(new: &mut Vec<u8>, text: &[u8], decimals: &[Decimal]) -> Result<(), Memory>
    requires { AreWithin 0 decimals.now (length text.now) }
    ensures { OnOk result (new.new.items
        ≡ new.old.items ++ plain_with text.now 0 decimals.now) }
{
    let mut at = 0;
    for decimal in decimals {
        write(new, &text[at..decimal.first])?;
        write_float(new, decimal.bits)?;
        at = decimal.first + decimal.len;
    }
    write(new, &text[at..])
}
