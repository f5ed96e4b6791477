//! Decodes the code byte that begins a token.

ghost use Rattle.std.specs.Prelude.{◌≡◌, ◌<◌, IfOk};
ghost use Rattle.marshal_spec.specs.format.Code.{kind_of, IsKind};

use base_data::model::code::{CodeFault, CodeKind};

/// Returns the kind of the token that begins with this code (`intext.h`), or why no token begins
/// with this code.
#[tactic(auto, unfolding(marshal_spec::specs::format::Code::kind_of))]
pub fn code_kind(code: u8) -> Result<CodeKind, CodeFault>
    ensures kind { result ≡ kind_of code }
    // The numbers in the kind fit into the bits that the code has for them, and a width is from one
    // byte to eight.
    ensures known { IfOk result IsKind }
{
    match code {
        0x80.. => Ok(CodeKind::SmallBlock(code % 16, code / 16 % 8)),
        0x40.. => Ok(CodeKind::SmallInt(code % 64)),
        0x20.. => Ok(CodeKind::SmallString(code % 32)),
        _ => large_kind(code),
    }
}

// Decodes a code below 32, which carries no number.
#[tactic(auto, unfolding(marshal_spec::specs::format::Code::kind_of))]
fn large_kind(code: u8) -> Result<CodeKind, CodeFault>
    requires { code < 32 }
    ensures { result ≡ kind_of code }
{
    match code {
        0x00 => Ok(CodeKind::Int(1)),
        0x01 => Ok(CodeKind::Int(2)),
        0x02 => Ok(CodeKind::Int(4)),
        0x03 => Ok(CodeKind::Int(8)),
        0x04 => Ok(CodeKind::Shared(1)),
        0x05 => Ok(CodeKind::Shared(2)),
        0x06 => Ok(CodeKind::Shared(4)),
        0x07 => Ok(CodeKind::Doubles(4, true)),
        0x08 => Ok(CodeKind::Block(4)),
        0x09 => Ok(CodeKind::Str(1)),
        0x0a => Ok(CodeKind::Str(4)),
        0x0b => Ok(CodeKind::Double(false)),
        0x0c => Ok(CodeKind::Double(true)),
        0x0d => Ok(CodeKind::Doubles(1, false)),
        0x0e => Ok(CodeKind::Doubles(1, true)),
        0x0f => Ok(CodeKind::Doubles(4, false)),
        0x10 | 0x11 => Err(CodeFault::PointerCode),
        0x12 => Ok(CodeKind::Custom(true)),
        0x13 => Ok(CodeKind::Block(8)),
        0x14 => Ok(CodeKind::Shared(8)),
        0x15 => Ok(CodeKind::Str(8)),
        0x16 => Ok(CodeKind::Doubles(8, false)),
        0x17 => Ok(CodeKind::Doubles(8, true)),
        0x18 => Err(CodeFault::CustomLen),
        0x19 => Ok(CodeKind::Custom(false)),
        0x1a.. => Err(CodeFault::BadCode),
    }
}
