//! Checks the incomplete token at the end of the bytes.

ghost use Rattle.std.specs.Prelude.{◌≤◌, ◌<◌, ◌^◌, length, IfSome};
ghost use Rattle.std.specs.Bool.{OnTrue};
ghost use Rattle.std.specs.Option.{ForSome};
ghost use Rattle.marshal_spec.specs.format.Code.{IsKind};
ghost use Rattle.marshal_spec.specs.format.Raw.{field_bytes};
ghost use Rattle.marshal_spec.specs.format.Words.{of_object, words32, words64};
ghost use Rattle.marshal_codec.specs.headers.Counting.{IsCountable};
ghost use Rattle.check_stream.specs.truncated.Truncated.{IsTruncated, IsTruncatedAfter, IsSized};

use base_data::model::code::{CodeKind, CustomKind, Measure};
use marshal_codec::codes::code_kind;
use marshal_codec::headers::words_of;
use marshal_codec::token::{custom_at, field_len, fixed_len, number_at};

/// Returns the number of bytes after the fixed bytes, and the measure of the token's object. If the
/// token is a block or a `Nativeint`, or if the token's fields are not sound, returns `None`. The
/// caller guarantees that the fields are complete.
#[tactic(auto, using(crate::proofs::truncated::TruncatedLemmas::sized_small_string, crate::proofs::truncated::TruncatedLemmas::sized_int, crate::proofs::truncated::TruncatedLemmas::sized_str, crate::proofs::truncated::TruncatedLemmas::sized_double, crate::proofs::truncated::TruncatedLemmas::sized_doubles, crate::proofs::truncated::TruncatedLemmas::sized_int32, crate::proofs::truncated::TruncatedLemmas::sized_int64))]
fn content(kind: CodeKind, rest: &[u8]) -> Option<(u64, Option<Measure>)>
    requires known { IsKind kind }
    requires whole { field_bytes kind ≤ length rest.now }
    ensures sized { IfSome result (λ content. IsSized kind rest.now content.0 content.1) }
    ensures few { IfSome result (λ content. content.0 < 2 ^ 60) }
    ensures countable { IfSome result (λ content. ForSome content.1 IsCountable) }
{
    match kind {
        CodeKind::SmallString(size) => {
            let len = u64::from(size);
            Some((len, Some(Measure::Bytes(len))))
        }
        CodeKind::Int(width) if width != 8 => Some((0, None)),
        CodeKind::Str(width) => {
            let len = number_at(rest, width);
            if len >= 1 << 60 {
                return None;
            }
            Some((len, Some(Measure::Bytes(len))))
        }
        CodeKind::Double(_) => Some((0, Some(Measure::Double))),
        CodeKind::Doubles(width, _) => {
            let count = number_at(rest, width);
            if count == 0 || count >= 1 << 57 {
                return None;
            }
            Some((8 * count, Some(Measure::Doubles(count))))
        }
        CodeKind::Custom(_) => match custom_at(rest) {
            Some(CustomKind::Int32) => Some((4, Some(Measure::Custom(4, 4)))),
            Some(CustomKind::Int64) => Some((8, Some(Measure::Custom(8, 8)))),
            _ => None,
        },
        _ => None,
    }
}

/// Returns true if `w32` and `w64` words are enough for the object.
fn has_words(measure: Option<Measure>, w32: u64, w64: u64) -> bool
    requires { ForSome measure IsCountable }
    ensures { OnTrue result
        ((of_object words32 measure ≤ w32) × (of_object words64 measure ≤ w64)) }
{
    let Some(measure) = measure else {
        return true;
    };
    let (few32, few64) = words_of(measure);
    if w32 < few32 || w64 < few64 {
        return false;
    }
    true
}

/// Returns a lower bound of the length of an incomplete token of this kind. If a step that the
/// present bytes decide may fail, returns `None`.
#[tactic(auto, using(crate::proofs::truncated::TruncatedLemmas::truncated_in_fields, crate::proofs::truncated::TruncatedLemmas::truncated_in_content))]
fn kind_truncated_len(kind: CodeKind, rest: &[u8], w32: u64, w64: u64) -> Option<u64>
    requires { IsKind kind }
    ensures { IfSome result (λ n. IsTruncatedAfter kind rest.now n w32 w64) }
{
    let fixed = fixed_len(kind);
    let field = field_len(kind);
    if rest.len() < field {
        return Some(1 + fixed);
    }
    let Some((variable, measure)) = content(kind, rest) else {
        return None;
    };
    let n = 1 + fixed + variable;
    if n <= 1 + rest.len() as u64 {
        return None;
    }
    if !has_words(measure, w32, w64) {
        return None;
    }
    Some(n)
}

/// Checks `bytes`, a proper prefix of a token. If the prefix surely passes every step that the
/// prefix decides, returns a lower bound of the token's length in bytes. The object of the token
/// may have at most `w32` words on 32 bits and `w64` words on 64 bits. If the check is
/// inconclusive, returns `None`.
pub fn truncated_len(bytes: &[u8], w32: u64, w64: u64) -> Option<u64>
    ensures { IfSome result (λ n. IsTruncated n w32 w64 bytes.now) }
{
    if bytes.is_empty() {
        return Some(1);
    }
    let Ok(kind) = code_kind(bytes[0]) else {
        return None;
    };
    let Some(n) = kind_truncated_len(kind, &bytes[1..], w32, w64) else {
        return None;
    };
    Some(n)
}
