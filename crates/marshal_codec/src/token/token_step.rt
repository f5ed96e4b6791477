//! Decodes the token that bytes begin with.

ghost use Rattle.std.specs.Prelude.{◌≡◌, ◌<◌, ◌≤◌, ◌+◌, ◌%◌, ◌^◌, length, take};
ghost use Rattle.std.specs.Prelude.{slice_index, Ok, Some, None, MatchResult};
ghost use Rattle.base_data.specs.declared.model.code.CustomKind.{CustomKind};
ghost use Rattle.base_data.specs.declared.model.code.CustomKind.TheVariants as customs;
ghost use Rattle.marshal_spec.specs.format.Code.{kind_of, custom_of};
ghost use Rattle.marshal_spec.specs.format.Raw.{fixed_bytes, variable_bytes, custom_bytes};
ghost use Rattle.marshal_spec.specs.format.Token.{block_or_atom, word_token};
ghost use Rattle.marshal_codec.specs.declared.token.summary.Summary.TheVariants as summaries;
ghost use Rattle.marshal_codec.specs.token.Summary.{IsSummary, IsSummaryAfter, HasFewFields};
ghost use Rattle.marshal_codec.specs.token.TokenFault.{integer_fault, word_fault, count_fault};
ghost use Rattle.marshal_codec.specs.token.TokenFault.{native_fault, custom_fault, chunk_fault};
ghost use Rattle.marshal_codec.specs.token.TokenStep.{IsStep};

use crate::codes::{KnownKind, code_kind};
use crate::token::len::{chunk_len, custom_at, native_len};
use crate::token::summary::Summary;
use crate::token::token_fault::TokenFault;
use crate::token::token_number::{number_of, signed_of};
use base_data::model::code::{CodeKind, CustomKind};

/// What bytes begin with.
#[derive(Clone, Copy)]
pub enum TokenStep {
    /// A complete token: the summary of the token, and its length in bytes.
    Token(Summary, usize),
    /// The beginning of a token. More bytes are needed.
    More,
    /// No token.
    Fault(TokenFault),
}

/// Returns a block, or an atom if `size` is 0.
#[inline(always)]
fn block_summary(tag: u8, size: u64) -> Summary
    requires { size < 2 ^ 60 }
    ensures summary { IsSummary result (block_or_atom tag size) }
    ensures few { HasFewFields result }
{
    if size == 0 {
        Summary::Atom(tag)
    } else {
        Summary::Block(tag, size)
    }
}

/// Returns the block or atom that a header word describes, or the fault of its tag.
fn word_summary(word: u64) -> Result<Summary, TokenFault>
    ensures { MatchResult result
        (λ summary. (word % 256 ≤ 243) × IsSummary summary (word_token word) × HasFewFields summary)
        (λ fault. word_fault word ≡ Some fault) }
{
    let tag = word % 256;
    if tag > 243 {
        return Err(TokenFault::Tag(tag as u8));
    }
    Ok(block_summary(tag as u8, word / 1024))
}

/// Returns an integer of `width` bytes, or a fault if the integer needs more than 63 bits.
#[inline(always)]
fn integer_summary(width: u8, z: i64) -> Result<Summary, TokenFault>
    ensures { MatchResult result
        (λ summary. (integer_fault width z ≡ None) × (summary ≡ summaries.Integer z))
        (λ fault. integer_fault width z ≡ Some fault) }
{
    if width == 8 && (z < -(1 << 62) || z >= 1 << 62) {
        return Err(TokenFault::Integer(z));
    }
    Ok(Summary::Integer(z))
}

/// Returns an array of `count` doubles, or a fault if `count` is 0.
fn doubles_summary(count: u64) -> Result<Summary, TokenFault>
    ensures { MatchResult result
        (λ summary. (0 < count) × (summary ≡ summaries.Doubles count))
        (λ fault. count_fault count ≡ Some fault) }
{
    if count == 0 {
        return Err(TokenFault::Empty);
    }
    Ok(Summary::Doubles(count))
}

/// Returns a `Nativeint` with this kind byte, or the fault of the kind byte.
fn native_summary(kind: u8) -> Result<Summary, TokenFault>
    ensures { MatchResult result
        (λ summary. (native_fault kind ≡ None) × (summary ≡ summaries.Custom customs.Native))
        (λ fault. native_fault kind ≡ Some fault) }
{
    if native_len(kind) == 0 {
        return Err(TokenFault::Native(kind));
    }
    Ok(Summary::Custom(CustomKind::Native))
}

/// Returns the custom block that these bytes encode, or the fault of its identifier or of its data.
fn custom_summary(chunk: &[u8]) -> Result<Summary, TokenFault>
    requires { length chunk.now
        ≡ 3 + custom_bytes (custom_of (take 3 chunk.now)) (slice_index chunk.now 3) }
    ensures { MatchResult result
        (λ summary. (kind : CustomKind) × (custom_of (take 3 chunk.now) ≡ Some kind)
        × (custom_fault (Some kind) (slice_index chunk.now 3) ≡ None)
        × (summary ≡ summaries.Custom kind))
        (λ fault. custom_fault (custom_of (take 3 chunk.now)) (slice_index chunk.now 3)
        ≡ Some fault) }
{
    match custom_at(chunk) {
        None => Err(TokenFault::Identifier),
        Some(CustomKind::Int32) => Ok(Summary::Custom(CustomKind::Int32)),
        Some(CustomKind::Int64) => Ok(Summary::Custom(CustomKind::Int64)),
        Some(CustomKind::Native) => native_summary(chunk[3]),
    }
}

/// Returns the summary of a token of this kind, or the fault of the token's fields. `chunk`
/// contains the bytes after the code of the token.
#[inline(always)]
fn chunk_summary(kind: KnownKind, chunk: &[u8]) -> Result<Summary, TokenFault>
    requires { length chunk.now ≡ fixed_bytes kind.kind + variable_bytes kind.kind chunk.now }
    ensures { MatchResult result
        (λ summary. IsSummaryAfter kind.kind chunk.now summary × HasFewFields summary)
        (λ fault. chunk_fault kind.kind chunk.now ≡ Some fault) }
{
    match kind.kind {
        CodeKind::SmallBlock(tag, size) => Ok(block_summary(tag, u64::from(size))),
        CodeKind::SmallInt(value) => Ok(Summary::Integer(i64::from(value))),
        CodeKind::SmallString(len) => Ok(Summary::Bytes(u64::from(len))),
        CodeKind::Int(width) => integer_summary(width, signed_of(chunk)),
        CodeKind::Shared(_) => Ok(Summary::Shared(number_of(chunk))),
        CodeKind::Block(_) => word_summary(number_of(chunk)),
        CodeKind::Str(width) => Ok(Summary::Bytes((chunk.len() - usize::from(width)) as u64)),
        CodeKind::Double(_) => Ok(Summary::Double),
        CodeKind::Doubles(width, _) => doubles_summary(number_of(&chunk[..usize::from(width)])),
        CodeKind::Custom(_) => custom_summary(chunk),
    }
}

/// Decodes the token that the bytes begin with.
#[inline(never)]
pub fn decode(bytes: &[u8]) -> TokenStep
    ensures { IsStep bytes.now result }
{
    if bytes.is_empty() {
        return TokenStep::More;
    }
    match code_kind(bytes[0]) {
        Ok(kind) => decode_kind(kind, bytes),
        Err(fault) => TokenStep::Fault(TokenFault::Code(fault)),
    }
}

/// Decodes the token that the bytes begin with, as `decode` does. `kind` is the kind of the first
/// byte.
#[inline(always)]
pub fn decode_kind(kind: CodeKind, bytes: &[u8]) -> TokenStep
    requires some { 0 < length bytes.now }
    requires kind { kind_of (slice_index bytes.now 0) ≡ Ok kind }
    ensures { IsStep bytes.now result }
{
    let after = &bytes[1..];
    let Some(len) = chunk_len(kind, after) else {
        return TokenStep::More;
    };
    let known = KnownKind { kind };
    match chunk_summary(known, &after[..len]) {
        Ok(summary) => TokenStep::Token(summary, 1 + len),
        Err(fault) => TokenStep::Fault(fault),
    }
}
