//! Computes the size of a token's contents and of its object from the bytes after its code.

ghost use Rattle.std.specs.Prelude.{◌≡◌, ◌≤◌, ◌<◌, ◌^◌, length, take};
ghost use Rattle.base_data.specs.model.Bytes.{number, number_in};
ghost use Rattle.marshal_spec.specs.format.Raw.{field_bytes, variable_bytes, measure_after};
ghost use Rattle.marshal_spec.specs.format.Raw.{custom_measure, block_measure};
ghost use Rattle.marshal_spec.specs.format.Words.{of_object, fields};

use base_data::model::code::{CodeKind, CustomKind, Measure};
use marshal_codec::codes::KnownKind;
use marshal_codec::token::{custom_at, custom_len, number_at};

/// Decodes the bits of a double from eight bytes in either byte order. The function compiles to one
/// load.
#[tactic(auto, using(crate::proofs::ReaderSizeLemmas::little_eight, crate::proofs::ReaderSizeLemmas::big_eight))]
#[inline(always)]
pub fn double_bits(bytes: &[u8], little: bool) -> u64
    requires { length bytes.now ≡ 8 }
    ensures { result ≡ number_in little bytes.now }
{
    let mut all = [0u8; 8];
    all.copy_from_slice(bytes);
    if little {
        u64::from_le_bytes(all)
    } else {
        u64::from_be_bytes(all)
    }
}

/// Returns the number of bytes that the token has after the fixed bytes of its kind.
pub fn variable_len(kind: KnownKind, rest: &[u8]) -> u128
    requires whole { field_bytes kind.kind ≤ length rest.now }
    ensures { result ≡ variable_bytes kind.kind rest.now }
{
    match kind.kind {
        CodeKind::SmallString(len) => u128::from(len),
        CodeKind::Str(width) => u128::from(number_at(rest, width)),
        CodeKind::Doubles(width, _) => 8 * u128::from(number_at(rest, width)),
        CodeKind::Custom(_) => {
            let kind = if rest.len() > 3 { rest[3] } else { 0 };
            u128::from(custom_len(custom_at(rest), kind))
        }
        _ => 0,
    }
}

/// Returns the measure of a block with `size` fields, or `None` for an atom.
pub fn block_measure_of(size: u64) -> Option<Measure>
    ensures { result ≡ block_measure size }
{
    if size == 0 {
        None
    } else {
        Some(Measure::Block(size))
    }
}

/// Returns the measure of a custom block with this identifier.
pub fn custom_measure_of(custom: Option<CustomKind>) -> Option<Measure>
    ensures { result ≡ custom_measure custom }
{
    match custom {
        None => None,
        Some(CustomKind::Int32) => Some(Measure::Custom(4, 4)),
        Some(CustomKind::Int64) => Some(Measure::Custom(8, 8)),
        Some(CustomKind::Native) => Some(Measure::Custom(4, 8)),
    }
}

/// Decodes the number in the first `width` bytes. The function is not inlined, and therefore
/// `measure_at` stays small enough to be inlined.
#[inline(never)]
fn stated_number(rest: &[u8], width: u8) -> u64
    requires few { width ≤ 8 }
    requires whole { width ≤ length rest.now }
    ensures { result ≡ number (take width rest.now) }
{
    number_at(rest, width)
}

/// Returns the measure of the object that the token makes, or `None` if the token makes no object.
#[inline(always)]
pub fn measure_at(kind: KnownKind, rest: &[u8]) -> Option<Measure>
    requires whole { field_bytes kind.kind ≤ length rest.now }
    ensures measure { result ≡ measure_after kind.kind rest.now }
    ensures few { of_object fields result < 2 ^ 60 }
{
    match kind.kind {
        CodeKind::SmallBlock(_, size) => block_measure_of(u64::from(size)),
        CodeKind::SmallInt(_) | CodeKind::Int(_) | CodeKind::Shared(_) => None,
        CodeKind::SmallString(len) => Some(Measure::Bytes(u64::from(len))),
        CodeKind::Block(width) => block_measure_of(stated_number(rest, width) / 1024),
        CodeKind::Str(width) => Some(Measure::Bytes(stated_number(rest, width))),
        CodeKind::Double(_) => Some(Measure::Double),
        CodeKind::Doubles(width, _) => Some(Measure::Doubles(stated_number(rest, width))),
        CodeKind::Custom(_) => custom_measure_of(custom_at(rest)),
    }
}
