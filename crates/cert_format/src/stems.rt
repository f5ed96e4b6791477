//! Fast path for pair lines whose objects differ only in the last digit. The bytes before that
//! digit (the stem) are compared and not parsed.

ghost use Rattle.std.specs.Prelude.{◌≡◌, ◌+◌, ◌≤◌, ◌++◌, length, take, IfSome, codes, decimal};
ghost use Rattle.std.specs.Bool.{OnTrue};
ghost use Rattle.cert_format.specs.CertificateNumbers.{IsNumber};
ghost use Rattle.cert_format.specs.PairRuns.{word_of, IsPairEnd, IsFirstPair, IsStem};

use crate::certificate_number::first_number;
use crate::cuts::after;

/// Returns the eight bytes from position `position` as a 64-bit word.
#[inline(always)]
fn word_from(bytes: &[u8], position: usize) -> u64
    requires { position + 8 ≤ length bytes.now }
    ensures { result ≡ word_of bytes.now position }
{
    u64::from_le_bytes([
        bytes[position],
        bytes[position + 1],
        bytes[position + 2],
        bytes[position + 3],
        bytes[position + 4],
        bytes[position + 5],
        bytes[position + 6],
        bytes[position + 7],
    ])
}

/// Returns true if the text begins with `prefix`, which has 8 to 16 bytes. Compares two overlapping
/// words.
#[inline(always)]
fn begins_with(text: &[u8], prefix: &[u8]) -> bool
    requires many { 8 ≤ length prefix.now }
    requires few { length prefix.now ≤ 16 }
    requires within { length prefix.now ≤ length text.now }
    ensures { OnTrue result (take (length prefix.now) text.now ≡ prefix.now) }
{
    let end = prefix.len() - 8;
    if word_from(text, 0) != word_from(prefix, 0) {
        return false;
    }
    if word_from(text, end) != word_from(prefix, end) {
        return false;
    }
    true
}

/// Parses the type at the end of a pair line. Returns the type and the text after the line.
#[inline(always)]
pub fn first_end(text: &[u8]) -> Option<(u64, &[u8])>
    ensures { IfSome result (λ p. IsPairEnd text.now p.0 p.1.now) }
{
    if text.len() > 1 && text[0].is_ascii_digit() && text[1] == b'\n' {
        return Some((u64::from(text[0] - b'0'), &text[2..]));
    }
    let (ty, feed) = first_number(text)?;
    let rest = after(feed, b"\n")?;
    Some((ty, rest))
}

/// Parses a pair line that begins with the stem. Returns the pair and the text after the line.
#[inline(always)]
pub fn first_agree<'a>(text: &'a [u8], stem: &[u8], tens: u64) -> Option<((u64, u64), &'a [u8])>
    requires { IsStem stem.now tens }
    ensures { IfSome result (λ p. IsFirstPair text.now p.0 p.1.now) }
{
    let len = stem.len();
    if text.len() < len + 4 || !begins_with(text, stem) {
        return None;
    }
    if !text[len].is_ascii_digit() || text[len + 1] != b' ' {
        return None;
    }
    let (ty, rest) = first_end(&text[len + 2..])?;
    Some(((tens + u64::from(text[len] - b'0'), ty), rest))
}

/// Returns the stem of a line with this object. If the object is too small or too large for a stem,
/// returns the previous stem.
#[inline(always)]
pub fn stem_of<'a>(
    text: &'a [u8],
    object: u64,
    behind: &[u8],
    stem: &'a [u8],
    tens: u64,
) -> (&'a [u8], u64)
    requires before { IsStem stem.now tens }
    requires number { IsNumber object }
    requires line { text.now ≡ codes "pair " ++ (decimal object ++ behind.now) }
    ensures { IsStem result.0.now result.1 }
{
    let end = text.len() - behind.len();
    if end < 9 || end > 17 || object < 10 || object >= 100_000_000_000_000_000 {
        return (stem, tens);
    }
    (&text[..end - 1], object - object % 10)
}
