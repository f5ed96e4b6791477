//! The length of a token, from its kind and the bytes after its code.

ghost use Rattle.std.specs.Prelude.{◌≡◌, ◌≤◌, ◌+◌, ◌*◌, ◌<◌, ◌^◌, length, take, MatchOption};
ghost use Rattle.std.specs.Prelude.{slice_index};
ghost use Rattle.base_data.specs.model.Bytes.{number};
ghost use Rattle.marshal_spec.specs.format.Code.{IsKind, custom_of, native_bytes};
ghost use Rattle.marshal_spec.specs.format.Raw.{fixed_bytes, field_bytes, variable_bytes};
ghost use Rattle.marshal_spec.specs.format.Raw.{custom_bytes};

use crate::customs::ident;
use crate::token::token_number::number_of;
use base_data::model::code::{CodeKind, CustomKind};

/// Returns the number of bytes that every token of the kind has after its code.
pub fn fixed_len(kind: CodeKind) -> u64
    ensures is { result ≡ fixed_bytes kind }
    ensures few { result < 2 ^ 8 }
{
    match kind {
        CodeKind::SmallBlock(_, _) | CodeKind::SmallInt(_) | CodeKind::SmallString(_) => 0,
        CodeKind::Int(width)
        | CodeKind::Shared(width)
        | CodeKind::Block(width)
        | CodeKind::Str(width)
        | CodeKind::Doubles(width, _) => u64::from(width),
        CodeKind::Double(_) => 8,
        CodeKind::Custom(_) => 3,
    }
}

/// Returns how many of the fixed bytes the steps read. For a double or a short integer, the number
/// is 0.
pub fn field_len(kind: CodeKind) -> usize
    ensures { result ≡ field_bytes kind }
{
    match kind {
        CodeKind::SmallBlock(_, _)
        | CodeKind::SmallInt(_)
        | CodeKind::SmallString(_)
        | CodeKind::Double(_) => 0,
        CodeKind::Int(width) => { if width == 8 { 8 } else { 0 } }
        CodeKind::Shared(width)
        | CodeKind::Block(width)
        | CodeKind::Str(width)
        | CodeKind::Doubles(width, _) => usize::from(width),
        CodeKind::Custom(_) => 3,
    }
}

/// Returns the number of bytes after the token's code, or `None` if the bytes of the token are
/// incomplete.
#[inline(always)]
pub fn chunk_len(kind: CodeKind, rest: &[u8]) -> Option<usize>
    requires { IsKind kind }
    ensures { MatchOption result
        (length rest.now < fixed_bytes kind + variable_bytes kind rest.now)
        (λ len. (len ≤ length rest.now) × (len
        ≡ fixed_bytes kind + variable_bytes kind rest.now)) }
{
    let len = match kind {
        CodeKind::SmallBlock(_, _) | CodeKind::SmallInt(_) => 0,
        CodeKind::SmallString(len) => usize::from(len),
        CodeKind::Int(width) | CodeKind::Shared(width) | CodeKind::Block(width) => {
            usize::from(width)
        }
        CodeKind::Double(_) => 8,
        CodeKind::Str(width) => return bytes_len(rest, usize::from(width)),
        CodeKind::Doubles(width, _) => return doubles_len(rest, usize::from(width)),
        CodeKind::Custom(_) => return named_len(rest),
    };
    if rest.len() < len {
        return None;
    }
    Some(len)
}

/// Returns the length in bytes of a number of `width` bytes and the bytes that the number counts.
/// Returns `None` if these bytes are incomplete.
fn bytes_len(rest: &[u8], width: usize) -> Option<usize>
    requires { width ≤ 8 }
    ensures { MatchOption result
        (length rest.now < width + number (take width rest.now))
        (λ len. (len ≤ length rest.now) × (len ≡ width + number (take width rest.now))) }
{
    if rest.len() < width {
        return None;
    }
    let count = number_of(&rest[..width]);
    if count > (rest.len() - width) as u64 {
        return None;
    }
    Some(width + count as usize)
}

/// Returns the length in bytes of a number of `width` bytes and the doubles that the number counts.
/// Returns `None` if these bytes are incomplete.
fn doubles_len(rest: &[u8], width: usize) -> Option<usize>
    requires { width ≤ 8 }
    ensures { MatchOption result
        (length rest.now < width + 8 * number (take width rest.now))
        (λ len. (len ≤ length rest.now) × (len ≡ width + 8 * number (take width rest.now))) }
{
    if rest.len() < width {
        return None;
    }
    let count = number_of(&rest[..width]);
    let room = (rest.len() - width) / 8;
    if count > room as u64 {
        return None;
    }
    Some(width + 8 * count as usize)
}

/// Returns the custom kind that the first three bytes identify.
pub fn custom_at(rest: &[u8]) -> Option<CustomKind>
    requires { 3 ≤ length rest.now }
    ensures { result ≡ custom_of (take 3 rest.now) }
{
    ident([rest[0], rest[1], rest[2]])
}

/// Returns the number of bytes of a `Nativeint` after this kind byte, or 0 if the kind byte is
/// unknown.
pub fn native_len(kind: u8) -> u64
    ensures { result ≡ native_bytes kind }
{
    match kind {
        1 => 4,
        2 => 8,
        _ => 0,
    }
}

/// Returns the number of bytes of a custom block after its identifier. `kind` is the byte after the
/// identifier.
pub fn custom_len(custom: Option<CustomKind>, kind: u8) -> u64
    ensures { result ≡ custom_bytes custom kind }
{
    match custom {
        None => 0,
        Some(CustomKind::Int32) => 4,
        Some(CustomKind::Int64) => 8,
        Some(CustomKind::Native) => 1 + native_len(kind),
    }
}

/// Returns the number of bytes of a custom block after its code, or `None` if these bytes are
/// incomplete.
fn named_len(rest: &[u8]) -> Option<usize>
    ensures { MatchOption result
        (length rest.now < 3 + custom_bytes (custom_of (take 3 rest.now)) (slice_index rest.now 3))
        (λ len. (len ≤ length rest.now)
        × (len ≡ 3 + custom_bytes (custom_of (take 3 rest.now)) (slice_index rest.now 3))) }
{
    if rest.len() < 3 {
        return None;
    }
    let kind = if rest.len() > 3 { rest[3] } else { 0 };
    let len = custom_len(custom_at(rest), kind);
    if ((rest.len() - 3) as u64) < len {
        return None;
    }
    Some(3 + len as usize)
}
