//! The texts of characters and strings.

ghost use Rattle.std.specs.Prelude.{◌≡◌, ◌≤◌, ◌∷◌, [], ◌++◌, take, OnOk};
ghost use Rattle.std.specs.Bool.{OnTrue};
ghost use Rattle.std.specs.List.{flat_map};
ghost use Rattle.text_print.specs.leaves.LeafTexts.{letter_of, escaped, char_text, string_text};

use crate::leaves::text_bytes::write_reserved;
use base_data::model::Memory;
use base_data::text::write;

/// Returns the letter that denotes a byte after a backslash (OCaml's lexer, `lexer.mll`).
fn letter_of(byte: u8) -> Option<u8>
    ensures { result ≡ letter_of byte }
{
    match byte {
        10 => Some(b'n'),
        9 => Some(b't'),
        8 => Some(b'b'),
        13 => Some(b'r'),
        _ => None,
    }
}

/// Appends one byte in the form that the byte has between quotes `quote`.
#[inline(never)]
fn write_byte(text: &mut Vec<u8>, quote: u8, byte: u8) -> Result<(), Memory>
    ensures { OnOk result (text.new.items ≡ text.old.items ++ escaped quote byte) }
{
    if byte == b'\\' || byte == quote {
        return write(text, &[b'\\', byte]);
    }
    if let Some(letter) = letter_of(byte) {
        return write(text, &[b'\\', letter]);
    }
    if 32 <= byte && byte <= 126 {
        return write(text, &[byte]);
    }
    write(
        text,
        &[
            b'\\',
            b'0' + byte / 100,
            b'0' + byte / 10 % 10,
            b'0' + byte % 10,
        ],
    )
}

/// If `is_plain` returns true, the byte needs no escape between quotes `quote`.
#[inline(always)]
fn is_plain(quote: u8, byte: u8) -> bool
    ensures { OnTrue result (escaped quote byte ≡ byte ∷ []) }
{
    32 <= byte && byte <= 126 && byte != b'\\' && byte != quote
}

/// Appends bytes in the form that the bytes have between quotes `quote`. Runs of bytes without
/// escapes are copied at once.
#[inline(never)]
pub fn write_escaped(text: &mut Vec<u8>, quote: u8, bytes: &[u8]) -> Result<(), Memory>
    ensures { OnOk result (text.new.items ≡ text.old.items ++ flat_map (escaped quote) bytes.now) }
{
    let mut start = 0;
    for i in 0..bytes.len() {
        if is_plain(quote, bytes[i]) {
            continue;
        }
        write(text, &bytes[start..i])?;
        write_byte(text, quote, bytes[i])?;
        start = i + 1;
    }
    write(text, &bytes[start..])
}

// For each byte, 0 if the byte needs no escape in a string, and 1 if the byte needs an escape.
static OTHERS: [u8; 256] = [
    1, 1, 1, 1, 1, 1, 1, 1, 1, 1, 1, 1, 1, 1, 1, 1, 1, 1, 1, 1, 1, 1, 1, 1, 1, 1, 1, 1, 1, 1, 1, 1,
    0, 0, 1, 0, 0, 0, 0, 0, 0, 0, 0, 0, 0, 0, 0, 0, 0, 0, 0, 0, 0, 0, 0, 0, 0, 0, 0, 0, 0, 0, 0, 0,
    0, 0, 0, 0, 0, 0, 0, 0, 0, 0, 0, 0, 0, 0, 0, 0, 0, 0, 0, 0, 0, 0, 0, 0, 0, 0, 0, 0, 1, 0, 0, 0,
    0, 0, 0, 0, 0, 0, 0, 0, 0, 0, 0, 0, 0, 0, 0, 0, 0, 0, 0, 0, 0, 0, 0, 0, 0, 0, 0, 0, 0, 0, 0, 1,
    1, 1, 1, 1, 1, 1, 1, 1, 1, 1, 1, 1, 1, 1, 1, 1, 1, 1, 1, 1, 1, 1, 1, 1, 1, 1, 1, 1, 1, 1, 1, 1,
    1, 1, 1, 1, 1, 1, 1, 1, 1, 1, 1, 1, 1, 1, 1, 1, 1, 1, 1, 1, 1, 1, 1, 1, 1, 1, 1, 1, 1, 1, 1, 1,
    1, 1, 1, 1, 1, 1, 1, 1, 1, 1, 1, 1, 1, 1, 1, 1, 1, 1, 1, 1, 1, 1, 1, 1, 1, 1, 1, 1, 1, 1, 1, 1,
    1, 1, 1, 1, 1, 1, 1, 1, 1, 1, 1, 1, 1, 1, 1, 1, 1, 1, 1, 1, 1, 1, 1, 1, 1, 1, 1, 1, 1, 1, 1, 1,
];

/// Returns 0 if a byte needs no escape in a string, and 1 if the byte needs an escape.
#[inline(always)]
fn other(byte: u8) -> u8
    ensures one { result ≤ 1 }
    ensures plain { result ≡ 0 → escaped 34 byte ≡ byte ∷ [] }
{
    OTHERS[usize::from(byte)]
}

/// Returns true if none of the first `k` bytes of a word needs an escape in a string. All eight
/// bytes are inspected, and therefore no branch depends on `k`.
#[inline(always)]
fn are_plain(bytes: &[u8; 8], k: usize) -> bool
    requires { k ≤ 8 }
    ensures { OnTrue result (flat_map (escaped 34) (take k bytes.now) ≡ take k bytes.now) }
{
    let mut others = 0;
    for i in 0..8 {
        let byte_other = other(bytes[i]);
        others += u64::from(if i < k { byte_other } else { 0 });
    }
    others == 0
}

/// Appends the first `k` bytes of a word in the form that the bytes have in a string. If none of
/// the `k` bytes needs an escape, copies all `k` bytes at once.
#[inline(always)]
pub fn write_word(text: &mut Vec<u8>, bytes: &[u8; 8], k: usize) -> Result<(), Memory>
    requires { k ≤ 8 }
    ensures { OnOk result
        (text.new.items ≡ text.old.items ++ flat_map (escaped 34) (take k bytes.now)) }
{
    if !are_plain(bytes, k) {
        return write_escaped(text, b'"', &bytes[..k]);
    }
    text.reserve(8)?;
    let end = text.len() + k;
    write_reserved(text, bytes);
    text.truncate(end);
    Ok(())
}

/// Appends a character literal.
pub fn write_char(text: &mut Vec<u8>, byte: u8) -> Result<(), Memory>
    ensures { OnOk result (text.new.items ≡ text.old.items ++ char_text byte) }
{
    write(text, b"'")?;
    write_byte(text, b'\'', byte)?;
    write(text, b"'")
}

/// Appends a string literal.
pub fn write_string(text: &mut Vec<u8>, bytes: &[u8]) -> Result<(), Memory>
    ensures { OnOk result (text.new.items ≡ text.old.items ++ string_text bytes.now) }
{
    write(text, b"\"")?;
    write_escaped(text, b'"', bytes)?;
    write(text, b"\"")
}
