//! Scanners for the beginning of a text. If `show` does not write the text, the results are
//! meaningless.

use base_data::model::Memory;
use std::alloc::Global;

/// Returns the rest of the text after `count` bytes, or nothing if the text is shorter.
#[inline(always)]
pub fn after(text: &[u8], count: usize) -> &[u8] {
    if count > text.len() {
        return &[];
    }
    &text[count..]
}

/// Returns the first `count` bytes, or the whole text if it is shorter.
#[inline(always)]
pub fn prefix(text: &[u8], count: usize) -> &[u8] {
    if count > text.len() {
        return text;
    }
    &text[..count]
}

/// Returns the rest of the text after a separator of two parts, or `None` if the text does not
/// begin with a separator.
#[inline(always)]
pub fn between(text: &[u8]) -> Option<&[u8]> {
    match text {
        [b',', b' ', rest @ ..] => Some(rest),
        [b';', b' ', rest @ ..] => Some(rest),
        _ => None,
    }
}

/// Returns true if the last byte of a text is a byte that can end the text of a block.
pub fn ends_block(text: &[u8]) -> bool {
    if text.is_empty() {
        return false;
    }
    let end = text[text.len() - 1];
    end == b')' || end == b'}'
}

/// Returns the number of decimal digits at the beginning of the text.
#[inline(always)]
fn digits_len(text: &[u8]) -> usize {
    text.iter().take_while(|b| b.is_ascii_digit()).count()
}

/// Returns the number that the digits denote, or the greatest number of 64 bits if the number is
/// too large.
#[inline(always)]
fn number_of(digits: &[u8]) -> u64 {
    let mut number: u64 = 0;
    for digit in digits {
        number = number
            .saturating_mul(10)
            .saturating_add(u64::from(*digit & 15));
    }
    number
}

/// Returns the number as an integer, or 0 if the number is too large.
#[inline(always)]
fn positive(number: u64) -> i64 {
    if number > 1 << 62 { 0 } else { number as i64 }
}

/// Returns the negated number as an integer, or 0 if the number is too large.
#[inline(always)]
fn negative(number: u64) -> i64 {
    if number > 1 << 62 {
        0
    } else {
        -(number as i64)
    }
}

/// Parses an integer. Returns the integer with the rest of the text.
#[inline(always)]
pub fn integer(text: &[u8]) -> (i64, &[u8]) {
    if let [b'-', rest @ ..] = text {
        let count = digits_len(rest);
        return (negative(number_of(prefix(rest, count))), after(rest, count));
    }
    let count = digits_len(text);
    (positive(number_of(prefix(text, count))), after(text, count))
}

/// Returns the value of a hexadecimal digit.
#[inline(always)]
fn hexadecimal(digit: u8) -> u64 {
    let low = u64::from(digit & 15);
    if digit < b'a' {
        low
    } else {
        low.saturating_add(9)
    }
}

/// Parses a double whose `$` is right before `text`. Returns the bits of the double with the rest
/// of the text.
#[inline(always)]
pub fn double(text: &[u8]) -> (u64, &[u8]) {
    let mut bits: u64 = 0;
    for digit in prefix(text, 16) {
        bits = bits.saturating_mul(16).saturating_add(hexadecimal(*digit));
    }
    (bits, after(text, 16))
}

/// Returns true if a byte of a string represents itself.
#[inline(always)]
fn is_plain(b: u8) -> bool {
    if b == b'"' || b == b'\\' { false } else { true }
}

/// Returns the number of bytes at the beginning of a string that represent themselves.
#[inline(always)]
pub fn plain_len(text: &[u8]) -> usize {
    text.iter().take_while(|b| is_plain(**b)).count()
}

/// Parses the byte that the three decimal digits at the beginning of the text denote.
fn decimal(text: &[u8]) -> Option<(u8, &[u8])> {
    let [a, b, c, rest @ ..] = text else {
        return None;
    };
    let value = 100 * u16::from(*a & 15) + 10 * u16::from(*b & 15) + u16::from(*c & 15);
    if value > 255 {
        return None;
    }
    Some((value as u8, rest))
}

/// Returns the byte that a backslash and the byte `b` represent.
fn named(b: u8) -> u8 {
    match b {
        b'n' => b'\n',
        b't' => b'\t',
        b'b' => 8,
        b'r' => b'\r',
        _ => b,
    }
}

/// Parses the escape at the beginning of the text. Returns `None` if the text begins with no
/// escape.
fn escape(text: &[u8]) -> Option<(u8, &[u8])> {
    let [first, second, rest @ ..] = text else {
        return None;
    };
    if *first != b'\\' {
        return None;
    }
    if second.is_ascii_digit() {
        return decimal(after(text, 1));
    }
    Some((named(*second), rest))
}

/// Parses a string whose opening quote is right before `text`.
pub fn string<'t>(alloc: Global, text: &'t [u8]) -> Result<Option<(Vec<u8>, &'t [u8])>, Memory> {
    let mut bytes = Vec::new(alloc);
    let mut rest = text;
    for _ in 0..text.len() {
        let count = plain_len(rest);
        bytes.extend_from_slice(prefix(rest, count))?;
        let Some((byte, more)) = escape(after(rest, count)) else {
            return Ok(Some((bytes, after(after(rest, count), 1))));
        };
        bytes.push(byte)?;
        rest = more;
    }
    Ok(None)
}

/// Returns true if a byte may occur in the name of a constructor.
#[inline(always)]
fn is_in_name(b: u8) -> bool {
    if b == b'(' || b == b')' || b == b'{' || b == b'}' || b == b',' || b == b';' {
        false
    } else {
        true
    }
}

/// Returns the number of bytes of a constructor's name at the beginning of the text.
#[inline(always)]
pub fn name_len(text: &[u8]) -> usize {
    text.iter().take_while(|b| is_in_name(**b)).count()
}
