//! Encodes a header as the runtime writes headers (`extern.c`).

ghost use Rattle.std.specs.Prelude.{◌≡◌, ◌≤◌, ◌∷◌, ◌++◌, [], take, flat_map};
ghost use Rattle.std.specs.Int.{bytes_high_first};
ghost use Rattle.marshal_codec.specs.headers.Encoding.{FitsSmall};
ghost use Rattle.marshal_spec.specs.format.Canonical.{header_encoding};

use crate::headers::magic::{BIG_MAGIC, SMALL_MAGIC};
use base_data::model::header::Head;

/// Returns the bytes of a header, and the number of these bytes. If the header is small, its
/// numbers must be less than 2^32.
#[tactic(auto, unfolding(marshal_spec::specs::format::Canonical::header_encoding))]
pub fn encode(head: Head) -> ([u8; 32], usize)
    requires { FitsSmall head }
    ensures encoded { take result.1 result.0 ≡ header_encoding head }
    ensures few { result.1 ≤ 32 }
{
    if head.big {
        (big(head.length, head.objects, head.w64), 32)
    } else {
        let (length, objects) = (head.length as u32, head.objects as u32);
        (small(length, objects, head.w32 as u32, head.w64 as u32), 20)
    }
}

// Encodes a small header: five numbers of four bytes each.
fn small(length: u32, objects: u32, w32: u32, w64: u32) -> [u8; 32]
    ensures { take 20 result
        ≡ flat_map (bytes_high_first 4) (0x8495_A6BE ∷ length ∷ objects ∷ w32 ∷ w64 ∷ []) }
{
    let mut bytes = [0; 32];
    bytes[..4].copy_from_slice(&SMALL_MAGIC.to_be_bytes());
    bytes[4..8].copy_from_slice(&length.to_be_bytes());
    bytes[8..12].copy_from_slice(&objects.to_be_bytes());
    bytes[12..16].copy_from_slice(&w32.to_be_bytes());
    bytes[16..20].copy_from_slice(&w64.to_be_bytes());
    bytes
}

// Encodes a big header: the magic number, four zero bytes, and three numbers of eight bytes each.
fn big(length: u64, objects: u64, w64: u64) -> [u8; 32]
    ensures { result
        ≡ flat_map (bytes_high_first 4) (0x8495_A6BF ∷ 0 ∷ [])
        ++ flat_map (bytes_high_first 8) (length ∷ objects ∷ w64 ∷ []) }
{
    let mut bytes = [0; 32];
    bytes[..4].copy_from_slice(&BIG_MAGIC.to_be_bytes());
    bytes[8..16].copy_from_slice(&length.to_be_bytes());
    bytes[16..24].copy_from_slice(&objects.to_be_bytes());
    bytes[24..].copy_from_slice(&w64.to_be_bytes());
    bytes
}
