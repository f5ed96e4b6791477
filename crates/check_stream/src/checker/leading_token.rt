//! The token that bytes begin with.

ghost use Rattle.std.specs.Prelude.{◌%◌, ◌/◌};
ghost use Rattle.marshal_codec.specs.token.TokenStep.{IsStep};

use base_data::model::code::CodeKind;
use marshal_codec::token::{TokenStep, decode, decode_kind};

/// Decodes the token that the bytes begin with. The common codes have branches of their own.
#[tactic(auto, unfolding(marshal_spec::specs::format::Code::kind_of))]
#[inline(always)]
pub fn first_token(bytes: &[u8]) -> TokenStep
    ensures { IsStep bytes.now result }
{
    if bytes.is_empty() {
        return decode(bytes);
    }
    let code = bytes[0];
    match code {
        0x80.. => decode_kind(CodeKind::SmallBlock(code % 16, code / 16 % 8), bytes),
        0x40.. => decode_kind(CodeKind::SmallInt(code % 64), bytes),
        0x20.. => decode_kind(CodeKind::SmallString(code % 32), bytes),
        0x00 => decode_kind(CodeKind::Int(1), bytes),
        0x01 => decode_kind(CodeKind::Int(2), bytes),
        0x02 => decode_kind(CodeKind::Int(4), bytes),
        0x04 => decode_kind(CodeKind::Shared(1), bytes),
        0x05 => decode_kind(CodeKind::Shared(2), bytes),
        _ => decode(bytes),
    }
}
