//! Re-reads tokens that the pass has read already, to find a block by its object number.

ghost use Rattle.std.specs.Prelude.{◌≡◌, ◌<◌, length, slice_get, slice_index, Some, IfSome};
ghost use Rattle.std.specs.Prelude.{if◌then◌else◌};
ghost use Rattle.marshal_spec.specs.format.Token.{Token};
ghost use Rattle.marshal_spec.specs.format.Tree.{made_by};
ghost use Rattle.marshal_codec.specs.token.TokenStep.{IsStep};
ghost use Rattle.marshal_codec.specs.token.Summary.{IsSummary};
ghost use Rattle.check_stream.specs.checker.Again.{Inspects, IsBlockSeen, IsBlockIn, IsReference};

use base_data::model::code::CodeKind;
use marshal_codec::token::{Summary, TokenStep, decode, decode_kind};

/// Decodes the token that `bytes` begin with, if the token's code is below 0x20.
#[tactic(auto, unfolding(marshal_spec::specs::format::Code::kind_of))]
#[inline(always)]
fn decode_large<const SKIPS: bool>(code: u8, bytes: &[u8]) -> TokenStep
    requires some { 0 < length bytes.now }
    requires code { slice_index bytes.now 0 ≡ code }
    ensures { IsStep bytes.now result }
{
    match code {
        0x00 => decode_kind(CodeKind::Int(1), bytes),
        0x01 => decode_kind(CodeKind::Int(2), bytes),
        0x02 => decode_kind(CodeKind::Int(4), bytes),
        _ => decode(bytes),
    }
}

/// Decodes the token that `bytes` begin with. Codes of small blocks, small integers and small
/// strings have separate branches, and blocks are tested first. The compiler inlines an instance
/// only if the instance has one caller, so each caller has a value of `SKIPS` of its own.
#[tactic(auto, unfolding(marshal_spec::specs::format::Code::kind_of))]
#[inline(always)]
fn decode_again<const SKIPS: bool>(bytes: &[u8]) -> TokenStep
    ensures { IsStep bytes.now result }
{
    if bytes.is_empty() {
        return decode(bytes);
    }
    let code = bytes[0];
    if code >= 0x80 {
        decode_kind(CodeKind::SmallBlock(code % 16, code / 16 % 8), bytes)
    } else if code >= 0x40 {
        decode_kind(CodeKind::SmallInt(code % 64), bytes)
    } else if code >= 0x20 {
        decode_kind(CodeKind::SmallString(code % 32), bytes)
    } else {
        decode_large::<SKIPS>(code, bytes)
    }
}

/// Decodes the first token of `bytes`. Returns the summary of the token, and its length in bytes.
#[inline(always)]
pub fn inspect<const SKIPS: bool>(bytes: &[u8]) -> Option<(Summary, usize)>
    ensures { IfSome result (λ inspect. Inspects bytes.now inspect.0 inspect.1) }
{
    let TokenStep::Token(seen, len) = decode_again::<SKIPS>(bytes) else {
        return None;
    };
    Some((seen, len))
}

/// Returns true if a token creates an object.
#[inline(always)]
fn makes_object(seen: Summary) -> bool
    ensures { (token : Token) → IsSummary seen token
        → made_by token ≡ (if result then 1 else 0) }
{
    match seen {
        Summary::Integer(_) => false,
        Summary::Atom(_) => false,
        Summary::Shared(_) => false,
        Summary::Block(_, _) => true,
        Summary::Bytes(_) => true,
        Summary::Double => true,
        Summary::Doubles(_) => true,
        Summary::Custom(_) => true,
    }
}

/// Returns the tag and the size of a block, and the offset of the block's fields. Returns `None`
/// for other tokens.
fn block_seen(seen: Summary, at: usize) -> Option<(u8, u64, usize)>
    ensures { IfSome result (λ block. IsBlockSeen seen at block.0 block.1 block.2) }
{
    match seen {
        Summary::Block(tag, size) => Some((tag, size, at)),
        _ => None,
    }
}

/// Returns mark number `k`: the offset, in bytes, of the token that was current after `64 * k`
/// objects.
fn mark_at(marks: &[usize], k: usize) -> usize
    requires { k < length marks.now }
    ensures { slice_get marks.now k ≡ Some result }
{
    marks[k]
}

/// Finds the block with object number `object`. Returns the block's tag, the block's size, and the
/// offset, in bytes, of the block's fields. Re-reads at most `left` tokens, and subtracts the
/// number of re-read tokens from `left`.
pub fn block_at(
    prefix: &[u8],
    marks: &[usize],
    left: &mut u64,
    object: usize,
) -> Option<(u8, u64, usize)>
    ensures { IfSome result
        (λ block. IsBlockIn prefix.now marks.now object block.0 block.1 block.2) }
{
    if object / 64 >= marks.len() {
        return None;
    }
    let mut at = mark_at(marks, object / 64);
    let mut made = object / 64 * 64;
    'skip: while *left > 0 && at < prefix.len() {
        *left -= 1;
        let Some((seen, len)) = inspect::<true>(&prefix[at..]) else {
            return None;
        };
        at += len;
        if makes_object(seen) {
            if made == object {
                return block_seen(seen, at);
            }
            made += 1;
        }
    }
    None
}

/// If `bytes` begin with a reference, returns the reference's offset and the reference's length in
/// bytes.
#[inline(always)]
pub fn reference_at(bytes: &[u8]) -> Option<(u64, usize)>
    ensures { IfSome result (λ reference. IsReference bytes.now reference.0 reference.1) }
{
    let TokenStep::Token(first, len) = decode(bytes) else {
        return None;
    };
    let Summary::Shared(offset) = first else {
        return None;
    };
    Some((offset, len))
}
