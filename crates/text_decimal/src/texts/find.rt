//! Finds the decimals of a text from left to right.

ghost use Rattle.std.specs.Prelude.{◌≡◌, ◌++◌, ◌^◌, OnOk, IfOk, length};
ghost use Rattle.text_decimal.specs.texts.PlainTexts.{decimals_in, plain_text, AreWithin};

use crate::texts::decimal_prefix::{DecimalPrefix, read_prefix};
use crate::texts::decimals::Decimal;
use crate::texts::plain_texts::write_plain;
use base_data::model::Memory;
use std::alloc::Global;

/// Returns the decimals of a text in order, up to its first lexical error.
pub fn find_decimals(alloc: Global, text: &[u8]) -> Result<Vec<Decimal>, Memory>
    ensures are { IfOk result (λ v. v.items ≡ decimals_in text.now) }
    ensures within { IfOk result (λ v. AreWithin 0 v.items (length text.now)) }
    ensures room { IfOk result (λ v. AreWithin 0 v.items (2 ^ 63)) }
{
    let mut decimals = Vec::new(alloc);
    let mut at = 0;
    let mut may = true;
    while at < text.len() {
        match read_prefix(alloc, may, &text[at..])? {
            DecimalPrefix::Double(bits, len) => {
                decimals.push(Decimal {
                    first: at,
                    len,
                    bits,
                })?;
                at += len;
                may = true;
            }
            DecimalPrefix::Kept(len, next) => {
                at += len;
                may = next;
            }
            DecimalPrefix::Fault => return Ok(decimals),
        }
    }
    Ok(decimals)
}

/// Appends the plain text that a text denotes, and returns the decimals of the text.
pub fn write_plain_text(
    alloc: Global,
    new: &mut Vec<u8>,
    text: &[u8],
) -> Result<Vec<Decimal>, Memory>
    ensures text { OnOk result (new.new.items ≡ new.old.items ++ plain_text text.now) }
    ensures decimals { IfOk result (λ v. v.items ≡ decimals_in text.now) }
    ensures room { IfOk result (λ v. AreWithin 0 v.items (2 ^ 63)) }
{
    let decimals = find_decimals(alloc, text)?;
    write_plain(new, text, decimals.as_slice())?;
    Ok(decimals)
}
