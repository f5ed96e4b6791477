//! The codes that begin tokens (`intext.h`).

ghost use Rattle.std.specs.Prelude.{◌≡◌, ◌<◌, IfOk};
ghost use Rattle.marshal_spec.specs.format.Code.{kind_of, IsKind, custom_of, native_bytes};

use crate::cut::byte_at;
use base_data::model::code::{CodeFault, CodeKind, CustomKind};

/// Returns the kind of token that a code begins.
#[tactic(auto, unfolding(marshal_spec::specs::format::Code::kind_of))]
pub fn kind_of(code: u8) -> Result<CodeKind, CodeFault>
    ensures kind { result ≡ kind_of code }
    ensures known { IfOk result IsKind }
{
    if code >= 128 {
        return Ok(CodeKind::SmallBlock(code % 16, code / 16 % 8));
    }
    if code >= 64 {
        return Ok(CodeKind::SmallInt(code % 64));
    }
    if code >= 32 {
        return Ok(CodeKind::SmallString(code % 32));
    }
    large_kind(code)
}

/// Returns the kind of token that a code below 32 begins.
#[tactic(auto, unfolding(marshal_spec::specs::format::Code::kind_of))]
fn large_kind(code: u8) -> Result<CodeKind, CodeFault>
    requires { code < 32 }
    ensures { result ≡ kind_of code }
{
    match code {
        0 => Ok(CodeKind::Int(1)),
        1 => Ok(CodeKind::Int(2)),
        2 => Ok(CodeKind::Int(4)),
        3 => Ok(CodeKind::Int(8)),
        4 => Ok(CodeKind::Shared(1)),
        5 => Ok(CodeKind::Shared(2)),
        6 => Ok(CodeKind::Shared(4)),
        7 => Ok(CodeKind::Doubles(4, true)),
        8 => Ok(CodeKind::Block(4)),
        9 => Ok(CodeKind::Str(1)),
        10 => Ok(CodeKind::Str(4)),
        11 => Ok(CodeKind::Double(false)),
        12 => Ok(CodeKind::Double(true)),
        13 => Ok(CodeKind::Doubles(1, false)),
        14 => Ok(CodeKind::Doubles(1, true)),
        15 => Ok(CodeKind::Doubles(4, false)),
        16 | 17 => Err(CodeFault::PointerCode),
        18 => Ok(CodeKind::Custom(true)),
        19 => Ok(CodeKind::Block(8)),
        20 => Ok(CodeKind::Shared(8)),
        21 => Ok(CodeKind::Str(8)),
        22 => Ok(CodeKind::Doubles(8, false)),
        23 => Ok(CodeKind::Doubles(8, true)),
        24 => Err(CodeFault::CustomLen),
        25 => Ok(CodeKind::Custom(false)),
        _ => Err(CodeFault::BadCode),
    }
}

/// Returns the custom type that an identifier names.
#[tactic(auto, unfolding(marshal_spec::specs::format::Code::custom_of))]
pub fn custom_of(bytes: &[u8]) -> Option<CustomKind>
    ensures { result ≡ custom_of bytes.now }
{
    if byte_at(bytes, 0) != b'_' || byte_at(bytes, 2) != 0 {
        return None;
    }
    match byte_at(bytes, 1) {
        b'i' => Some(CustomKind::Int32),
        b'j' => Some(CustomKind::Int64),
        b'n' => Some(CustomKind::Native),
        _ => None,
    }
}

/// Returns the number of bytes of a `Nativeint` after its kind byte. Returns 0 for an unknown kind
/// byte.
pub fn native_bytes(kind: u8) -> u64
    ensures { result ≡ native_bytes kind }
{
    match kind {
        1 => 4,
        2 => 8,
        _ => 0,
    }
}
