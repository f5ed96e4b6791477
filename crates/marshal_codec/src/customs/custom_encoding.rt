//! Encodes custom blocks as the runtime writes them (`extern.c`, `ints.c`).

ghost use Rattle.std.specs.Prelude.{◌≡◌, ◌≤◌, ◌∷◌, take};
ghost use Rattle.marshal_spec.specs.format.Canonical.{custom_encoding, native_encoding};
ghost use Rattle.marshal_spec.specs.format.Canonical.{signed_bytes};

use base_data::model::code::Custom;

const CODE: u8 = 0x19;

/// Returns the bytes of a custom block, beginning with the code, and the number of these bytes. A
/// `Nativeint` has four bytes if its number fits into four bytes, and otherwise eight.
#[tactic(auto, unfolding(marshal_spec::specs::format::Canonical::custom_encoding))]
pub fn encode(c: Custom) -> ([u8; 13], usize)
    ensures encoded { take result.1 result.0 ≡ custom_encoding c }
    ensures few { result.1 ≤ 13 }
{
    match c {
        Custom::I32(number) => int32(number),
        Custom::I64(number) => int64(number),
        Custom::Native(number) => native(number),
    }
}

fn int32(number: i32) -> ([u8; 13], usize)
    ensures encoded { take result.1 result.0 ≡ 0x19 ∷ 95 ∷ 105 ∷ 0 ∷ signed_bytes 4 number }
    ensures few { result.1 ≤ 13 }
{
    let b = number.cast_unsigned().to_be_bytes();
    (
        [CODE, b'_', b'i', 0, b[0], b[1], b[2], b[3], 0, 0, 0, 0, 0],
        8,
    )
}

fn int64(number: i64) -> ([u8; 13], usize)
    ensures encoded { take result.1 result.0 ≡ 0x19 ∷ 95 ∷ 106 ∷ 0 ∷ signed_bytes 8 number }
    ensures few { result.1 ≤ 13 }
{
    let b = number.cast_unsigned().to_be_bytes();
    (
        [
            CODE, b'_', b'j', 0, b[0], b[1], b[2], b[3], b[4], b[5], b[6], b[7], 0,
        ],
        12,
    )
}

// Encodes a `Nativeint`. The kind byte states the size of the number.
fn native(number: i64) -> ([u8; 13], usize)
    ensures encoded { take result.1 result.0 ≡ 0x19 ∷ 95 ∷ 110 ∷ 0 ∷ native_encoding number }
    ensures few { result.1 ≤ 13 }
{
    if -0x8000_0000 <= number && number < 0x8000_0000 {
        let b = (number as i32).cast_unsigned().to_be_bytes();
        return (
            [CODE, b'_', b'n', 0, 1, b[0], b[1], b[2], b[3], 0, 0, 0, 0],
            9,
        );
    }
    let b = number.cast_unsigned().to_be_bytes();
    (
        [
            CODE, b'_', b'n', 0, 2, b[0], b[1], b[2], b[3], b[4], b[5], b[6], b[7],
        ],
        13,
    )
}
