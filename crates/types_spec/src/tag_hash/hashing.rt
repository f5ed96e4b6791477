//! The hash of a polymorphic variant tag (`caml_hash_variant` in `hash.c` of OCaml's runtime).

ghost use Rattle.std.specs.Prelude.{◌≡◌, ◌%◌, ◌^◌, ◌<◌};
ghost use Rattle.types_spec.specs.tag_hash.TagHash.{number_of_tag, signed_31, tag_hash};

/// The modulus: the hash keeps the low 31 bits.
const MODULUS: u64 = 0x8000_0000;

/// The greatest hash. Greater 31-bit patterns stand for negative numbers.
const GREATEST: u64 = 0x3FFF_FFFF;

/// Returns the low 31 bits of the tag's base-223 number.
fn low_bits(tag: &[u8]) -> u64
    ensures value { result ≡ number_of_tag tag.now % 2 ^ 31 }
    ensures in_range { result < 2 ^ 31 }
{
    let mut bits: u64 = 0;
    for byte in tag {
        bits = (223 * bits + u64::from(*byte)) % MODULUS;
    }
    bits
}

/// Interprets 31 bits as a signed number in two's complement.
fn signed(bits: u64) -> i64
    requires { bits < 2 ^ 31 }
    ensures { result ≡ signed_31 bits }
{
    if bits > GREATEST {
        bits as i64 - MODULUS as i64
    } else {
        bits as i64
    }
}

/// Returns the hash of a tag. The tag is given without its backquote (`btype.ml`, `hash_variant`;
/// `hash.c`, `caml_hash_variant`).
pub fn hash(tag: &[u8]) -> i64
    ensures { result ≡ tag_hash tag.now }
{
    signed(low_bits(tag))
}
