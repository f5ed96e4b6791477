//! The header of a value (`intext.h`, `intern.c`). All numbers in a header are big-endian.

ghost use Rattle.std.specs.Prelude.{◌≡◌, ◌≤◌};
ghost use Rattle.marshal_spec.specs.format.Header.{magic, header_length, small_head, big_head};
ghost use Rattle.marshal_spec.specs.format.Header.{head_of};

use crate::cut::{between, number_of};
use base_data::model::bytes::big_endian;
use base_data::model::header::Head;

/// Magic number of a small header.
pub const SMALL_MAGIC: u64 = 0x8495_a6be;

/// Magic number of a big header.
pub const BIG_MAGIC: u64 = 0x8495_a6bf;

/// Magic number of compressed data, which is not supported.
pub const COMPRESSED_MAGIC: u64 = 0x8495_a6bd;

/// Returns the number of the first four bytes.
pub fn magic(bytes: &[u8]) -> u64
    ensures { result ≡ magic bytes.now }
{
    number_of(bytes, 4)
}

/// Returns the length in bytes of a header with this prefix.
pub fn header_length(bytes: &[u8]) -> usize
    ensures length { result ≡ header_length bytes.now }
    ensures few { result ≤ 32 }
{
    if magic(bytes) == BIG_MAGIC { 32 } else { 20 }
}

/// Returns the contents of a small header.
fn small_head(bytes: &[u8]) -> Head
    ensures { result ≡ small_head bytes.now }
{
    Head {
        big: false,
        length: big_endian(between(bytes, 4, 8)),
        objects: big_endian(between(bytes, 8, 12)),
        w32: big_endian(between(bytes, 12, 16)),
        w64: big_endian(between(bytes, 16, 20)),
    }
}

/// Returns the contents of a big header.
fn big_head(bytes: &[u8]) -> Head
    ensures { result ≡ big_head bytes.now }
{
    Head {
        big: true,
        length: big_endian(between(bytes, 8, 16)),
        objects: big_endian(between(bytes, 16, 24)),
        w32: 0,
        w64: big_endian(between(bytes, 24, 32)),
    }
}

/// Returns the contents of a header.
#[tactic(auto, unfolding(marshal_spec::specs::format::Header::head_of))]
pub fn head_of(bytes: &[u8]) -> Head
    ensures { result ≡ head_of bytes.now }
{
    if magic(bytes) == BIG_MAGIC {
        big_head(bytes)
    } else {
        small_head(bytes)
    }
}
