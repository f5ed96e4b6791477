//! Numbers of at most eight bytes, most significant byte first. The usual widths compile to one
//! load each.

ghost use Rattle.std.specs.Prelude.{◌≡◌, ◌≤◌, length, take};
ghost use Rattle.base_data.specs.model.Bytes.{number, signed};

use base_data::model::bytes::{big_endian, signed as signed_by_bytes};

/// Decodes a number of two bytes.
#[inline(always)]
fn two(bytes: &[u8]) -> u64
    requires { length bytes.now ≡ 2 }
    ensures { result ≡ number bytes.now }
{
    u64::from(bytes[0]) * 256 + u64::from(bytes[1])
}

/// Decodes a number of four bytes.
#[inline(always)]
fn four(bytes: &[u8]) -> u64
    requires { length bytes.now ≡ 4 }
    ensures { result ≡ number bytes.now }
{
    u64::from(u32::from_be_bytes([bytes[0], bytes[1], bytes[2], bytes[3]]))
}

/// Decodes a number of eight bytes.
#[tactic(auto, using(crate::proofs::token::TokenNumberLemmas::big_eight))]
#[inline(always)]
fn eight(bytes: &[u8]) -> u64
    requires { length bytes.now ≡ 8 }
    ensures { result ≡ number bytes.now }
{
    let mut all = [0u8; 8];
    all.copy_from_slice(bytes);
    u64::from_be_bytes(all)
}

/// Decodes a number of at most eight bytes.
#[inline(always)]
pub fn number_of(bytes: &[u8]) -> u64
    requires { length bytes.now ≤ 8 }
    ensures { result ≡ number bytes.now }
{
    match bytes.len() {
        1 => u64::from(bytes[0]),
        2 => two(bytes),
        4 => four(bytes),
        8 => eight(bytes),
        _ => big_endian(bytes),
    }
}

/// Decodes the number in the first `width` bytes.
#[inline(always)]
pub fn number_at(rest: &[u8], width: u8) -> u64
    requires few { width ≤ 8 }
    requires whole { width ≤ length rest.now }
    ensures { result ≡ number (take width rest.now) }
{
    number_of(&rest[..usize::from(width)])
}

/// Decodes an integer of one byte in two's complement.
#[inline(always)]
fn signed_one(bytes: &[u8]) -> i64
    requires { length bytes.now ≡ 1 }
    ensures { result ≡ signed bytes.now }
{
    let value = i64::from(bytes[0]);
    if value < 128 { value } else { value - 256 }
}

/// Decodes an integer of two bytes in two's complement.
#[inline(always)]
fn signed_two(bytes: &[u8]) -> i64
    requires { length bytes.now ≡ 2 }
    ensures { result ≡ signed bytes.now }
{
    let value = i64::from(bytes[0]) * 256 + i64::from(bytes[1]);
    if value < 32768 { value } else { value - 65536 }
}

/// Decodes an integer of four bytes in two's complement.
#[inline(always)]
fn signed_four(bytes: &[u8]) -> i64
    requires { length bytes.now ≡ 4 }
    ensures { result ≡ signed bytes.now }
{
    let value = u32::from_be_bytes([bytes[0], bytes[1], bytes[2], bytes[3]]);
    i64::from(value.cast_signed())
}

/// Decodes an integer of eight bytes in two's complement.
#[inline(always)]
fn signed_eight(bytes: &[u8]) -> i64
    requires { length bytes.now ≡ 8 }
    ensures { result ≡ signed bytes.now }
{
    eight(bytes).cast_signed()
}

/// Decodes an integer of one to eight bytes in two's complement.
#[inline(always)]
pub fn signed_of(bytes: &[u8]) -> i64
    requires some { 1 ≤ length bytes.now }
    requires few { length bytes.now ≤ 8 }
    ensures { result ≡ signed bytes.now }
{
    match bytes.len() {
        1 => signed_one(bytes),
        2 => signed_two(bytes),
        4 => signed_four(bytes),
        8 => signed_eight(bytes),
        _ => signed_by_bytes(bytes),
    }
}
