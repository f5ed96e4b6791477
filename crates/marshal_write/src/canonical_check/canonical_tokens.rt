//! Checks tokens one after another. Each function decodes a token and compares the bytes with the
//! canonical encoding of the decoded token. The proofs do not depend on the decoding.

ghost use Rattle.std.specs.Prelude.{◌≡◌, ◌<◌, ◌≤◌, length, slice_index, IfSome};
ghost use Rattle.std.specs.Bool.{OnTrue};
ghost use Rattle.marshal_write.specs.canonical_check.Canonicity.{BeginsCanonical, AreCanonical};
ghost use Rattle.marshal_write.specs.canonical_check.Canonicity.{AreBare};

use crate::canonical_check::encoded_prefixes::{
    block_len, double_len, doubles_len, int_len, int32_len, int64_len, native_len, shared_len,
    string_len,
};
use base_data::model::bytes::{big_endian, signed};
use marshal_codec::codes::{CodeKind, code_kind};

/// Decodes the number in the `width` bytes after the first byte, most significant byte first.
fn number_after(bytes: &[u8], width: u8) -> Option<u64> {
    let width = usize::from(width);
    if width > 8 || bytes.len() <= width {
        return None;
    }
    Some(big_endian(&bytes[1..=width]))
}

/// Decodes the signed integer in the `width` bytes after the first byte. Returns `None` if no code
/// has this width.
fn signed_after(bytes: &[u8], width: u8) -> Option<i64> {
    let b = bytes;
    match width {
        1 if b.len() > 1 => Some(i64::from(b[1].cast_signed())),
        2 if b.len() > 2 => Some(i64::from(u16::from_be_bytes([b[1], b[2]]).cast_signed())),
        4 if b.len() > 4 => {
            let bits = u32::from_be_bytes([b[1], b[2], b[3], b[4]]);
            Some(i64::from(bits.cast_signed()))
        }
        8 if b.len() > 8 => Some(signed(&b[1..9])),
        _ => None,
    }
}

/// Decodes the bits of the double in the eight bytes after the first byte, least significant byte
/// first.
fn bits_after(bytes: &[u8]) -> Option<u64> {
    if bytes.len() < 9 {
        return None;
    }
    let b = bytes;
    Some(u64::from_le_bytes([b[1], b[2], b[3], b[4], b[5], b[6], b[7], b[8]]))
}

/// Returns the length in bytes of a custom block, if `bytes` begins with the canonical encoding of
/// a custom block.
fn custom_len(bytes: &[u8]) -> Option<usize>
    ensures { IfSome result (λ n. BeginsCanonical n bytes.now) }
{
    match bytes {
        [_, _, b'i', _, a, b, c, d, ..] => {
            int32_len(u32::from_be_bytes([*a, *b, *c, *d]).cast_signed(), bytes)
        }
        [_, _, b'j', _, _, _, _, _, _, _, _, _, ..] => int64_len(signed(&bytes[4..12]), bytes),
        [_, _, b'n', _, 1, _, _, _, _, ..] => native_len(signed(&bytes[5..9]), bytes),
        [_, _, b'n', _, 2, _, _, _, _, _, _, _, _, ..] => native_len(signed(&bytes[5..13]), bytes),
        _ => None,
    }
}

/// Returns the length in bytes of the token of this kind with which `bytes` begins, if the token's
/// encoding is canonical.
fn kind_len(kind: CodeKind, bytes: &[u8]) -> Option<usize>
    ensures { IfSome result (λ n. BeginsCanonical n bytes.now) }
{
    match kind {
        CodeKind::Shared(width) => match number_after(bytes, width) {
            Some(offset) => shared_len(offset, bytes),
            None => None,
        },
        CodeKind::SmallString(len) => string_len(u64::from(len), bytes),
        CodeKind::Str(width) => match number_after(bytes, width) {
            Some(len) => string_len(len, bytes),
            None => None,
        },
        CodeKind::SmallBlock(tag, size) => block_len(tag, u64::from(size), bytes),
        CodeKind::Block(width) => match number_after(bytes, width) {
            Some(word) => block_len((word % 256) as u8, word / 1024, bytes),
            None => None,
        },
        CodeKind::SmallInt(n) => int_len(i64::from(n), bytes),
        CodeKind::Int(width) => match signed_after(bytes, width) {
            Some(z) => int_len(z, bytes),
            None => None,
        },
        CodeKind::Double(_) => match bits_after(bytes) {
            Some(bits) => double_len(bits, bytes),
            None => None,
        },
        CodeKind::Custom(_) => custom_len(bytes),
        CodeKind::Doubles(width, _) => match number_after(bytes, width) {
            Some(count) => doubles_len(count, bytes),
            None => None,
        },
    }
}

/// Returns the length in bytes of a token whose code contains the token's number, or `None` if
/// `bytes` is too short. The codes from 0x20 on contain the number of a small block, integer or
/// string.
#[inline(always)]
fn small_len(code: u8, bytes: &[u8]) -> Option<usize>
    requires some { 0 < length bytes.now }
    requires code { slice_index bytes.now 0 ≡ code }
    requires small { 32 ≤ code }
    ensures { IfSome result (λ n. BeginsCanonical n bytes.now) }
{
    if code >= 0x80 {
        return Some(1);
    }
    if code >= 0x40 {
        return Some(1);
    }
    let n = 1 + usize::from(code - 0x20);
    if bytes.len() < n {
        return None;
    }
    Some(n)
}

/// Returns the length in bytes of the first token, if `bytes` begins with the canonical encoding of
/// a token.
fn token_len(bytes: &[u8]) -> Option<usize>
    ensures { IfSome result (λ n. BeginsCanonical n bytes.now) }
{
    if bytes.is_empty() {
        return None;
    }
    let code = bytes[0];
    if code >= 0x20 {
        return small_len(code, bytes);
    }
    match code_kind(code) {
        Ok(kind) => kind_len(kind, bytes),
        Err(_) => None,
    }
}

/// Returns true if the bytes are the canonical encodings of a list of tokens. The answer false is
/// inconclusive.
pub fn are_canonical(bytes: &[u8]) -> bool
    ensures { OnTrue result (AreCanonical bytes.now) }
{
    let mut at = 0;
    for _turn in 0..bytes.len() {
        let Some(n) = token_len(&bytes[at..]) else {
            return false;
        };
        at += n;
        if at == bytes.len() {
            return true;
        }
    }
    false
}

/// Returns true if the bytes are the canonical encoding of one integer. The answer false is
/// inconclusive.
pub fn are_bare(bytes: &[u8]) -> bool
    ensures { OnTrue result (AreBare bytes.now) }
{
    if bytes.is_empty() {
        return false;
    }
    let z = match code_kind(bytes[0]) {
        Ok(CodeKind::SmallInt(n)) => i64::from(n),
        Ok(CodeKind::Int(width)) => match signed_after(bytes, width) {
            Some(z) => z,
            None => return false,
        },
        _ => return false,
    };
    let Some(n) = int_len(z, bytes) else {
        return false;
    };
    if n != bytes.len() {
        return false;
    }
    true
}
