//! Fast path. A few tests show that most tokens pass and need no new memory. The fast path reads
//! tokens that pass the tests, one after another. The full check (`judge`) reads every other token.

ghost use Rattle.std.specs.Prelude.{◌≡◌, ◌≤◌, ◌<◌, ◌+◌, ◌-◌, ◌*◌, ◌/◌, ◌%◌, ℕ, List, [], length};
ghost use Rattle.std.specs.Prelude.{take, slice_index, Some, None, Ok, IfSome, OnSome, true};
ghost use Rattle.marshal_spec.specs.format.Code.{kind_of};
ghost use Rattle.marshal_spec.specs.format.Raw.{fixed_bytes, variable_bytes, measure_after};
ghost use Rattle.marshal_spec.specs.format.Words.{of_object, fields};
ghost use Rattle.base_data.specs.model.Bytes.{number, signed};
ghost use Rattle.marshal_spec.specs.format.Step.{Context, field_refusal, is_integer};
ghost use Rattle.marshal_read.specs.declared.read_totals.ReadTotals.{ReadTotals};
ghost use Rattle.marshal_read.specs.Totals.{IsPlain};
ghost use Rattle.marshal_read.specs.Left.{LeavesRoom, StandsInRun, TakesLeft, TakesAll};
ghost use Rattle.marshal_read.specs.Chunks.{LeadsAs, TakesCommon};

use crate::decode::decode_in_room;
use crate::graph_builder::Builder;
use crate::read_totals::{ReadTotals, data_in};
use crate::remaining_room::RemainingRoom;
use crate::token_runs::run;
use crate::token_sizes::measure_at;
use base_data::model::bytes::skip;
use base_data::model::code::CodeKind;
use marshal_codec::codes::{KnownKind, code_kind};
use marshal_codec::token::{number_at, signed_of};

/// Returns the length of an integer of eight bytes, if the integer is complete and fits 63 bits.
#[inline(always)]
fn integer_len(rest: &[u8]) -> Option<usize>
    ensures { IfSome result
        (λ len. (len ≡ 8) × (len ≤ length rest.now)
        × (is_integer (signed (take 8 rest.now)) ≡ true)) }
{
    if rest.len() < 8 {
        return None;
    }
    let value = signed_of(&rest[..8]);
    if value < -(1 << 62) || value >= 1 << 62 {
        return None;
    }
    Some(8)
}

/// Returns the length of a header word of four bytes. The header word must be complete, its tag
/// must be valid, and its block must have few fields.
#[inline(always)]
fn word_len(rest: &[u8], width: u8) -> Option<usize>
    ensures { IfSome result
        (λ len. (width ≡ 4) × (len ≡ 4) × (len ≤ length rest.now)
        × (number (take width rest.now) % 256 ≤ 243)
        × (number (take width rest.now) / 1024 ≤ 48)) }
{
    if width != 4 || rest.len() < 4 {
        return None;
    }
    let word = number_at(rest, width);
    if word % 256 > 243 || word / 1024 > 48 {
        return None;
    }
    Some(4)
}

/// Returns the length of a string and of the byte that states the string's length, if these bytes
/// are complete.
#[inline(always)]
fn text_len(rest: &[u8], width: u8) -> Option<usize>
    ensures { IfSome result
        (λ len. (width ≡ 1) × (len ≡ 1 + number (take width rest.now)) × (len ≤ length rest.now)
        × (len ≤ 256)) }
{
    if width != 1 || rest.is_empty() {
        return None;
    }
    let size = number_at(rest, width);
    if size > 255 {
        return None;
    }
    let len = 1 + size as usize;
    if rest.len() < len {
        return None;
    }
    Some(len)
}

/// Returns the number of bytes after the code of a token, if the token is of a common kind,
/// complete, and its fields are sound. A reference is sound if the header states some objects and
/// the reference leads to one of the `objects` objects so far. The token needs little room, and few
/// fields follow the token for its length.
#[tactic(auto, using(crate::proofs::ReaderRunLemmas::few_fields, crate::proofs::ReaderRunLemmas::all_fields))]
#[inline(always)]
pub fn sound_len(stated: u64, objects: u64, kind: KnownKind, rest: &[u8]) -> Option<usize>
    ensures len { IfSome result
        (λ len. (len ≡ fixed_bytes kind.kind + variable_bytes kind.kind rest.now) × (len < 288)
        × (len ≤ length rest.now) × IsPlain kind.kind) }
    ensures few { IfSome result
        (λ len. of_object fields (measure_after kind.kind rest.now) ≤ 12 * (1 + len)) }
    ensures room { IfSome result
        (λ len. 3 * (1 + len) + of_object fields (measure_after kind.kind rest.now) ≤ 1024) }
    ensures sound { (c : Context) (code : ℕ) → c.head.objects ≡ stated → c.sums.objects ≡ objects
        → OnSome result (field_refusal c code kind.kind rest.now ≡ None) }
{
    let len = match kind.kind {
        CodeKind::SmallBlock(_, _) | CodeKind::SmallInt(_) => 0,
        CodeKind::SmallString(len) => usize::from(len),
        CodeKind::Int(8) => {
            let Some(len) = integer_len(rest) else {
                return None;
            };
            return Some(len);
        }
        CodeKind::Int(width) if width < 8 => usize::from(width),
        CodeKind::Shared(width) => {
            if rest.len() < usize::from(width) {
                return None;
            }
            let offset = number_at(rest, width);
            if offset == 0 || objects < offset || stated == 0 {
                return None;
            }
            usize::from(width)
        }
        CodeKind::Block(width) => {
            let Some(len) = word_len(rest, width) else {
                return None;
            };
            return Some(len);
        }
        CodeKind::Str(width) => {
            let Some(len) = text_len(rest, width) else {
                return None;
            };
            return Some(len);
        }
        CodeKind::Double(_) => 8,
        _ => return None,
    };
    if rest.len() < len {
        return None;
    }
    Some(len)
}

/// Reads the next token, whose kind is `kind`, if the token surely passes and needs no new memory.
/// The compiler inlines an instance only if the instance has one caller, so each caller has a
/// `CODE` of its own.
#[tactic(auto, using(crate::proofs::ReaderSizeLemmas::measure_small))]
#[inline(always)]
fn take_kind<const CODE: u8>(
    first: &ReadTotals,
    left: &mut RemainingRoom,
    builder: &mut Builder,
    kind: CodeKind,
    bytes: &[u8],
) -> usize
    requires some { 0 < length bytes.now }
    requires kind { kind_of (slice_index bytes.now 0) ≡ Ok kind }
    requires open { 0 < left.old.pending }
    requires stands { (n : ℕ) × (header : List ℕ) × (before : List (List ℕ))
        × (position : ReadTotals)
        × StandsInRun first.now n header before position left.old builder.old }
    ensures { (n : ℕ) (header : List ℕ) (before : List (List ℕ)) (position : ReadTotals)
        → StandsInRun first.now n header before position left.old builder.old
        → TakesLeft first.now n header before bytes.now position left.old builder.old left.new
        builder.new result }
{
    let rest = skip(bytes, 1);
    let known = KnownKind { kind };
    let objects = builder.count();
    let Some(len) = sound_len(first.head.objects, objects, known, rest) else {
        return 0;
    };
    let measure = measure_at(known, rest);
    let mut next = *left;
    if !next.spend(1 + len as u64, measure) {
        return 0;
    }
    if !next.is_sound(first, objects, measure) {
        return 0;
    }
    if !decode_in_room(builder, known, &rest[..len]) {
        return 0;
    }
    *left = next;
    1 + len
}

/// Reads the next token, if the token surely passes and needs no new memory. Returns the token's
/// length in bytes, or 0 if no token was read.
#[inline(always)]
fn take_one(
    first: &ReadTotals,
    left: &mut RemainingRoom,
    builder: &mut Builder,
    bytes: &[u8],
) -> usize
    requires some { 0 < length bytes.now }
    requires open { 0 < left.old.pending }
    requires stands { (n : ℕ) × (header : List ℕ) × (before : List (List ℕ))
        × (position : ReadTotals)
        × StandsInRun first.now n header before position left.old builder.old }
    ensures { (n : ℕ) (header : List ℕ) (before : List (List ℕ)) (position : ReadTotals)
        → StandsInRun first.now n header before position left.old builder.old
        → TakesLeft first.now n header before bytes.now position left.old builder.old left.new
        builder.new result }
{
    // The compiler specializes the code for each kind in the list. The codes 03, 08 and 09 are left
    // to the full check.
    match code_kind(bytes[0]) {
        Ok(CodeKind::SmallBlock(tag, size)) => {
            take_kind::<0x80>(first, left, builder, CodeKind::SmallBlock(tag, size), bytes)
        }
        Ok(CodeKind::SmallInt(value)) => {
            take_kind::<0x40>(first, left, builder, CodeKind::SmallInt(value), bytes)
        }
        Ok(CodeKind::SmallString(len)) => {
            take_kind::<0x20>(first, left, builder, CodeKind::SmallString(len), bytes)
        }
        Ok(CodeKind::Int(1)) => take_kind::<0x00>(first, left, builder, CodeKind::Int(1), bytes),
        Ok(CodeKind::Int(2)) => take_kind::<0x01>(first, left, builder, CodeKind::Int(2), bytes),
        Ok(CodeKind::Int(4)) => take_kind::<0x02>(first, left, builder, CodeKind::Int(4), bytes),
        Ok(CodeKind::Shared(1)) => take_kind::<0x04>(
            first,
            left,
            builder,
            CodeKind::Shared(1),
            bytes,
        ),
        Ok(CodeKind::Shared(2)) => take_kind::<0x05>(
            first,
            left,
            builder,
            CodeKind::Shared(2),
            bytes,
        ),
        Ok(CodeKind::Shared(4)) => take_kind::<0x06>(
            first,
            left,
            builder,
            CodeKind::Shared(4),
            bytes,
        ),
        Ok(CodeKind::Double(true)) => {
            take_kind::<0x0c>(first, left, builder, CodeKind::Double(true), bytes)
        }
        _ => 0,
    }
}

/// Reads tokens that surely pass and need no new memory, and returns the total length of the tokens
/// in bytes. All the bytes are data of the value, and no bytes remain after the value's last token.
#[inline(always)]
fn take_all(
    first: &ReadTotals,
    left: &mut RemainingRoom,
    builder: &mut Builder,
    bytes: &[u8],
) -> usize
    requires open { 0 < first.now.pending }
    requires within { first.now.taken + length bytes.now ≤ first.now.head.length }
    requires leaves { LeavesRoom first.now 0 first.now left.old }
    requires leads { (limit : ℕ) × (taken : List ℕ)
        × LeadsAs (Some first.now) limit taken builder.old [] }
    ensures { (limit : ℕ) (taken : List ℕ) → LeadsAs (Some first.now) limit taken builder.old [] →
        TakesAll first.now 0 limit taken bytes.now left.new builder.new result }
{
    let mut at = 0;
    while at < bytes.len() {
        let n = take_one(first, left, builder, &bytes[at..]);
        if n == 0 {
            return at;
        }
        at += n;
    }
    at
}

/// Reads tokens that surely pass and need no new memory, and returns the length of these tokens in
/// bytes. While there is enough room for every token, the room is not checked at each token.
#[inline(always)]
fn take_many(
    first: &ReadTotals,
    left: &mut RemainingRoom,
    builder: &mut Builder,
    bytes: &[u8],
) -> usize
    requires open { 0 < first.now.pending }
    requires within { first.now.taken + length bytes.now ≤ first.now.head.length }
    requires leaves { LeavesRoom first.now 0 first.now left.old }
    requires leads { (limit : ℕ) × (taken : List ℕ)
        × LeadsAs (Some first.now) limit taken builder.old [] }
    ensures { (limit : ℕ) (taken : List ℕ) → LeadsAs (Some first.now) limit taken builder.old [] →
        TakesAll first.now 0 limit taken bytes.now left.new builder.new result }
{
    let most = left.plenty(bytes.len());
    if most == 0 {
        take_all(first, left, builder, bytes)
    } else {
        run(first, left, builder, bytes, most)
    }
}

/// Reads tokens that surely pass and need no new memory. Returns the total length of the tokens in
/// bytes.
pub fn take_common(totals: &mut ReadTotals, builder: &mut Builder, bytes: &[u8]) -> usize
    requires open { 0 < totals.old.pending }
    requires leads { (limit : ℕ) × (taken : List ℕ)
        × LeadsAs (Some totals.old) limit taken builder.old [] }
    ensures { (limit : ℕ) (taken : List ℕ) → LeadsAs (Some totals.old) limit taken builder.old [] →
        TakesCommon limit taken bytes.now totals.new builder.new result }
{
    let first = *totals;
    let mut left = RemainingRoom::at(&first);
    let n = take_many(&first, &mut left, builder, data_in(&first, bytes));
    *totals = left.position(&first, n as u64, builder.count());
    n
}
