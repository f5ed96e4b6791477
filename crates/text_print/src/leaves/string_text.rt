//! Strings from 64-bit words.

ghost use Rattle.std.specs.Prelude.{◌≡◌, ◌/◌, ◌<◌, ◌++◌, length, take, OnOk};
ghost use Rattle.std.specs.Int.{w64, to_le_bytes};
ghost use Rattle.std.specs.List.{flat_map};
ghost use Rattle.text_print.specs.leaves.LeafTexts.{escaped, string_text};

use crate::leaves::escape::write_word;
use base_data::model::Memory;

/// Appends the first `len` bytes of `words` as a string literal. The least significant byte of each
/// word comes first.
#[inline(always)]
pub fn write_string_of(text: &mut Vec<u8>, words: &[u64], len: usize) -> Result<(), Memory>
    requires { len / 8 < length words.now }
    ensures { OnOk result
        (text.new.items
        ≡ text.old.items ++ string_text (take len (flat_map (to_le_bytes w64) words.now))) }
{
    text.push(b'"')?;
    write_words(text, words, len)?;
    Ok(text.push(b'"')?)
}

/// Appends the first `len` bytes of `words` in the form that the bytes have in a string.
#[inline(always)]
fn write_words(text: &mut Vec<u8>, words: &[u64], len: usize) -> Result<(), Memory>
    requires { len / 8 < length words.now }
    ensures { OnOk result
        (text.new.items
        ≡ text.old.items
        ++ flat_map (escaped 34) (take len (flat_map (to_le_bytes w64) words.now))) }
{
    let whole = len / 8;
    for j in 0..whole {
        write_word(text, &words[j].to_le_bytes(), 8)?;
    }
    write_word(text, &words[whole].to_le_bytes(), len % 8)?;
    Ok(())
}
