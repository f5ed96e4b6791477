//! Raw tokens: the fields of a token by their lengths, with any contents (`intern.c`).

ghost use Rattle.std.specs.Prelude.{◌≡◌, ◌<◌, ◌^◌, Option};
ghost use Rattle.marshal_spec.specs.format.Raw.{fixed_bytes, field_bytes, custom_bytes, kind_bytes};
ghost use Rattle.marshal_spec.specs.format.Raw.{custom_measure, variable_bytes, block_measure};
ghost use Rattle.marshal_spec.specs.format.Raw.{measure_after};
ghost use Rattle.marshal_spec.specs.format.Raw.{sizing_bytes, raw_length, raw_measure};

use crate::code::{custom_of, kind_of, native_bytes};
use crate::cut::{byte_at, first, number_of};
use base_data::model::bytes::skip;
use base_data::model::code::{CodeKind, CustomKind, Measure};
use marshal_codec::codes::KnownKind;

/// Returns the number of bytes that each token of the kind has after its code.
pub fn fixed_bytes(kind: CodeKind) -> u128
    ensures bytes { result ≡ fixed_bytes kind }
    ensures few { result < 2 ^ 8 }
{
    match kind {
        CodeKind::SmallBlock(_, _) | CodeKind::SmallInt(_) | CodeKind::SmallString(_) => 0,
        CodeKind::Int(width) | CodeKind::Shared(width) | CodeKind::Block(width) => {
            u128::from(width)
        }
        CodeKind::Str(width) | CodeKind::Doubles(width, _) => u128::from(width),
        CodeKind::Double(_) => 8,
        CodeKind::Custom(_) => 3,
    }
}

/// Returns how many of the fixed bytes form a field that is checked: a header word, an offset, a
/// length, an identifier, or an integer of eight bytes.
pub fn field_bytes(kind: CodeKind) -> u128
    ensures bytes { result ≡ field_bytes kind }
    ensures few { result < 2 ^ 8 }
{
    match kind {
        CodeKind::SmallBlock(_, _) | CodeKind::SmallInt(_) | CodeKind::SmallString(_) => 0,
        CodeKind::Int(8) => 8,
        CodeKind::Int(_) | CodeKind::Double(_) => 0,
        CodeKind::Shared(width) | CodeKind::Block(width) => u128::from(width),
        CodeKind::Str(width) | CodeKind::Doubles(width, _) => u128::from(width),
        CodeKind::Custom(_) => 3,
    }
}

/// Returns the length in bytes of the data of a custom value. The length of a `Nativeint` depends
/// on the kind byte.
fn custom_bytes(custom: Option<CustomKind>, kind: u8) -> u128
    ensures bytes { result ≡ custom_bytes custom kind }
    ensures few { result < 2 ^ 8 }
{
    match custom {
        None => 0,
        Some(CustomKind::Int32) => 4,
        Some(CustomKind::Int64) => 8,
        Some(CustomKind::Native) => 1 + u128::from(native_bytes(kind)),
    }
}

/// Returns the length in bytes of the kind byte, or 0 if the custom value has no kind byte.
fn kind_bytes(custom: Option<CustomKind>) -> u128
    ensures bytes { result ≡ kind_bytes custom }
    ensures few { result < 2 ^ 8 }
{
    match custom {
        Some(CustomKind::Native) => 1,
        _ => 0,
    }
}

/// Returns the object that a custom value makes.
fn custom_measure(custom: Option<CustomKind>) -> Option<Measure>
    ensures { result ≡ custom_measure custom }
{
    match custom {
        None => None,
        Some(CustomKind::Int32) => Some(Measure::Custom(4, 4)),
        Some(CustomKind::Int64) => Some(Measure::Custom(8, 8)),
        Some(CustomKind::Native) => Some(Measure::Custom(4, 8)),
    }
}

/// Returns the number of bytes after the fixed bytes of a string, an array or a custom value.
/// `rest` are the bytes after the code.
pub fn variable_bytes(kind: KnownKind, rest: &[u8]) -> u128
    ensures bytes { result ≡ variable_bytes kind.kind rest.now }
    ensures few { result < 2 ^ 68 }
{
    match kind.kind {
        CodeKind::SmallString(n) => u128::from(n),
        CodeKind::Str(width) => u128::from(number_of(rest, usize::from(width))),
        CodeKind::Doubles(width, _) => 8 * u128::from(number_of(rest, usize::from(width))),
        CodeKind::Custom(_) => custom_bytes(custom_of(first(rest, 3)), byte_at(rest, 3)),
        _ => 0,
    }
}

/// Returns the object that a block with `size` fields makes.
fn block_measure(size: u64) -> Option<Measure>
    ensures { result ≡ block_measure size }
{
    if size == 0 {
        None
    } else {
        Some(Measure::Block(size))
    }
}

/// Returns the object that a token makes. `rest` are the bytes after the code.
pub fn measure_after(kind: KnownKind, rest: &[u8]) -> Option<Measure>
    ensures { result ≡ measure_after kind.kind rest.now }
{
    match kind.kind {
        CodeKind::SmallBlock(_, size) => block_measure(u64::from(size)),
        CodeKind::SmallInt(_) | CodeKind::Int(_) | CodeKind::Shared(_) => None,
        CodeKind::SmallString(n) => Some(Measure::Bytes(u64::from(n))),
        CodeKind::Block(width) => block_measure(number_of(rest, usize::from(width)) / 1024),
        CodeKind::Str(width) => Some(Measure::Bytes(number_of(rest, usize::from(width)))),
        CodeKind::Double(_) => Some(Measure::Double),
        CodeKind::Doubles(width, _) => Some(Measure::Doubles(number_of(rest, usize::from(width)))),
        CodeKind::Custom(_) => custom_measure(custom_of(first(rest, 3))),
    }
}

/// Returns the number of bytes after the code that determine the length of the token.
pub fn sizing_bytes(kind: CodeKind, rest: &[u8]) -> u128
    ensures bytes { result ≡ sizing_bytes kind rest.now }
    ensures few { result < 2 ^ 9 }
{
    match kind {
        CodeKind::Custom(_) => 3 + kind_bytes(custom_of(first(rest, 3))),
        _ => field_bytes(kind),
    }
}

/// Returns the length in bytes of the raw token with this prefix.
pub fn raw_length(bytes: &[u8]) -> u128
    ensures bytes { result ≡ raw_length bytes.now }
    ensures few { result < 2 ^ 69 }
{
    let Some(code) = bytes.first() else {
        return 1;
    };
    match kind_of(*code) {
        Ok(kind) => {
            let rest = skip(bytes, 1);
            1 + (fixed_bytes(kind) + variable_bytes(KnownKind { kind }, rest))
        }
        Err(_) => 1,
    }
}

/// Returns the object that a raw token makes.
pub fn raw_measure(bytes: &[u8]) -> Option<Measure>
    ensures { result ≡ raw_measure bytes.now }
{
    let Some(code) = bytes.first() else {
        return None;
    };
    match kind_of(*code) {
        Ok(kind) => measure_after(KnownKind { kind }, skip(bytes, 1)),
        Err(_) => None,
    }
}
