//! Compares bytes with the canonical encoding of a token. Each function encodes the token and tests
//! whether the bytes begin with the encoding.

ghost use Rattle.std.specs.Prelude.{◌≡◌, ◌≤◌, ◌∷◌, length, take, IfSome};
ghost use Rattle.std.specs.Bool.{OnTrue};
ghost use Rattle.base_data.specs.declared.model.value.Obj.TheVariants as objects;
ghost use Rattle.marshal_spec.specs.format.Canonical.{double_bytes};
ghost use Rattle.marshal_spec.specs.format.Token.{integer, shared, block_or_atom, leaf};
ghost use Rattle.marshal_write.specs.canonical_check.Canonicity.{StandsFirst, BeginsCanonical};

use base_data::model::code::Custom;
use marshal_codec::codes::{
    encode_block, encode_double_array_len, encode_int, encode_shared, encode_string_len,
};
use marshal_codec::customs::encode;

/// Returns true if `bytes` begins with the first `n` bytes of `prefix`.
#[inline(always)]
fn begins(bytes: &[u8], prefix: &[u8], n: usize) -> bool
    requires { n ≤ length prefix.now }
    ensures { OnTrue result ((n ≤ length bytes.now) × (take n bytes.now ≡ take n prefix.now)) }
{
    bytes.starts_with(&prefix[..n])
}

/// Returns the length in bytes of the canonical encoding of an integer, if `bytes` begins with the
/// encoding (`extern.c`).
pub fn int_len(z: i64, bytes: &[u8]) -> Option<usize>
    ensures { IfSome result (λ n. StandsFirst (integer z) n bytes.now) }
{
    if z < -(1 << 62) || z >= 1 << 62 {
        return None;
    }
    let (prefix, n) = encode_int(z);
    if !begins(bytes, &prefix, n) {
        return None;
    }
    Some(n)
}

/// Returns the length in bytes of the canonical encoding of a reference with this offset, if
/// `bytes` begins with the encoding.
pub fn shared_len(offset: u64, bytes: &[u8]) -> Option<usize>
    ensures { IfSome result (λ n. StandsFirst (shared offset) n bytes.now) }
{
    if offset == 0 {
        return None;
    }
    let (prefix, n) = encode_shared(offset);
    if !begins(bytes, &prefix, n) {
        return None;
    }
    Some(n)
}

/// Returns the length in bytes of the canonical encoding of a block header with this tag and size,
/// if `bytes` begins with the encoding. A block of size 0 is an atom.
pub fn block_len(tag: u8, size: u64, bytes: &[u8]) -> Option<usize>
    ensures { IfSome result (λ n. StandsFirst (block_or_atom tag size) n bytes.now) }
{
    if tag > 243 || size >= 1 << 54 {
        return None;
    }
    let (prefix, n) = encode_block(tag, size);
    if !begins(bytes, &prefix, n) {
        return None;
    }
    Some(n)
}

/// Returns the length in bytes of the canonical encoding of the string of `len` bytes with which
/// `bytes` begins. Returns `None` if `bytes` does not begin with the canonical prefix or is too
/// short. The function accepts any contents of `len` bytes.
pub fn string_len(len: u64, bytes: &[u8]) -> Option<usize>
    ensures { IfSome result (λ n. BeginsCanonical n bytes.now) }
{
    let (prefix, n) = encode_string_len(len);
    if !begins(bytes, &prefix, n) {
        return None;
    }
    let room = (bytes.len() - n) as u64;
    if room < len {
        return None;
    }
    Some(n + len as usize)
}

/// Returns the length in bytes of the canonical encoding of the array of `count` doubles with which
/// `bytes` begins. Returns `None` if `count` is 0, or if `bytes` does not begin with the canonical
/// prefix or is too short. The function accepts any doubles.
pub fn doubles_len(count: u64, bytes: &[u8]) -> Option<usize>
    ensures { IfSome result (λ n. BeginsCanonical n bytes.now) }
{
    if count == 0 {
        return None;
    }
    let (prefix, n) = encode_double_array_len(count);
    if !begins(bytes, &prefix, n) {
        return None;
    }
    let room = (bytes.len() - n) / 8;
    if (room as u64) < count {
        return None;
    }
    Some(n + 8 * count as usize)
}

/// Returns the encoding of a double: its code and eight bytes, least significant byte first.
fn double_prefix(bits: u64) -> [u8; 9]
    ensures { result ≡ 0x0c ∷ double_bytes bits }
{
    let b = bits.to_le_bytes();
    [0x0c, b[0], b[1], b[2], b[3], b[4], b[5], b[6], b[7]]
}

/// Returns the length in bytes of the canonical encoding of a double with these bits, if `bytes`
/// begins with the encoding.
pub fn double_len(bits: u64, bytes: &[u8]) -> Option<usize>
    ensures { IfSome result (λ n. StandsFirst (leaf (objects.Double bits)) n bytes.now) }
{
    let prefix = double_prefix(bits);
    if !begins(bytes, &prefix, 9) {
        return None;
    }
    Some(9)
}

/// Returns the length in bytes of the canonical encoding of an `Int32`, if `bytes` begins with the
/// encoding.
pub fn int32_len(z: i32, bytes: &[u8]) -> Option<usize>
    ensures { IfSome result (λ n. StandsFirst (leaf (objects.I32 z)) n bytes.now) }
{
    let (prefix, n) = encode(Custom::I32(z));
    if !begins(bytes, &prefix, n) {
        return None;
    }
    Some(n)
}

/// Returns the length in bytes of the canonical encoding of an `Int64`, if `bytes` begins with the
/// encoding.
pub fn int64_len(z: i64, bytes: &[u8]) -> Option<usize>
    ensures { IfSome result (λ n. StandsFirst (leaf (objects.I64 z)) n bytes.now) }
{
    let (prefix, n) = encode(Custom::I64(z));
    if !begins(bytes, &prefix, n) {
        return None;
    }
    Some(n)
}

/// Returns the length in bytes of the canonical encoding of a `Nativeint`, if `bytes` begins with
/// the encoding.
pub fn native_len(z: i64, bytes: &[u8]) -> Option<usize>
    ensures { IfSome result (λ n. StandsFirst (leaf (objects.Native z)) n bytes.now) }
{
    let (prefix, n) = encode(Custom::Native(z));
    if !begins(bytes, &prefix, n) {
        return None;
    }
    Some(n)
}
