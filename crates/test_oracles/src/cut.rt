//! Parts of byte strings that may be too short.

ghost use Rattle.std.specs.Prelude.{◌≡◌, ◌≤◌, ◌-◌, length, take, slice_index, slice_range};
ghost use Rattle.base_data.specs.model.Bytes.{number, signed as signed_number};

use base_data::model::bytes::{big_endian, signed, skip};

/// Returns the first `n` bytes, or all bytes if there are fewer than `n`.
pub fn first(bytes: &[u8], n: usize) -> &[u8]
    ensures { result.now ≡ take n bytes.now }
{
    if n < bytes.len() { &bytes[..n] } else { bytes }
}

/// Returns the bytes from offset `from` to before offset `to`.
pub fn between(bytes: &[u8], from: usize, to: usize) -> &[u8]
    requires { from ≤ to }
    ensures bytes { result.now ≡ slice_range bytes.now from to }
    ensures few { length result.now ≤ to - from }
{
    first(skip(bytes, from), to - from)
}

/// Returns the byte at offset `i`, or 0 if there is no byte at `i`.
pub fn byte_at(bytes: &[u8], i: usize) -> u8
    ensures { result ≡ slice_index bytes.now i }
{
    if i < bytes.len() { bytes[i] } else { 0 }
}

/// Returns the big-endian number of the first `n` bytes.
pub fn number_of(bytes: &[u8], n: usize) -> u64
    requires { n ≤ 8 }
    ensures { result ≡ number (take n bytes.now) }
{
    big_endian(first(bytes, n))
}

/// Returns the signed integer of the first eight bytes.
pub fn integer_of(bytes: &[u8]) -> i64
    ensures { result ≡ signed_number (take 8 bytes.now) }
{
    if bytes.is_empty() {
        0
    } else {
        signed(first(bytes, 8))
    }
}
