//! Fast path for runs of common tokens. While the room suffices for every token, the loop does not
//! check the room at each token. At the end of the run, the code computes most of the totals, and
//! therefore the loop keeps few numbers.

ghost use Rattle.std.specs.Prelude.{◌≡◌, ◌<◌, ◌≤◌, ◌^◌, ℕ, List, [], length, drop};
ghost use Rattle.std.specs.Prelude.{slice_index, Some, Ok};
ghost use Rattle.marshal_spec.specs.format.Code.{kind_of};
ghost use Rattle.marshal_read.specs.declared.remaining_room.RemainingRoom.{RemainingRoom};
ghost use Rattle.marshal_read.specs.declared.read_totals.ReadTotals.{ReadTotals};
ghost use Rattle.marshal_read.specs.Left.{LeavesRoom, StandsInRun, TakesAll, RunsTokens, HasEnough};
ghost use Rattle.marshal_read.specs.Left.{HasPlenty};
ghost use Rattle.marshal_read.specs.Left.{RunsOn, RunsAll};
ghost use Rattle.marshal_read.specs.Chunks.{LeadsAs};

use crate::common::sound_len;
use crate::decode::decode_in_room;
use crate::graph_builder::Builder;
use crate::read_totals::ReadTotals;
use crate::remaining_room::{RemainingRoom, Run};
use crate::token_sizes::measure_at;
use base_data::model::code::CodeKind;
use marshal_codec::codes::KnownKind;

/// Returns the bytes after a token's code. The argument has at least one byte.
#[inline(always)]
fn after_code(bytes: &[u8]) -> &[u8]
    requires { 0 < length bytes.now }
    ensures { result.now ≡ drop 1 bytes.now }
{
    &bytes[1..]
}

/// Reads the next token, whose kind is `kind`, if the token surely passes, is not the last one and
/// needs no new memory. Each caller has a `CODE` of its own, and therefore each call is inlined.
#[tactic(auto, using(crate::proofs::ReaderSizeLemmas::measure_small))]
#[inline(always)]
fn run_kind<const CODE: u8>(
    first: &ReadTotals,
    now: &mut Run,
    builder: &mut Builder,
    kind: CodeKind,
    bytes: &[u8],
) -> usize
    requires some { 0 < length bytes.now }
    requires kind { kind_of (slice_index bytes.now 0) ≡ Ok kind }
    requires open { 0 < now.old.pending }
    requires runs { (n : ℕ) × (header : List ℕ) × (before : List (List ℕ)) × (position : ReadTotals)
        × (from : RemainingRoom) × (left : RemainingRoom)
        × StandsInRun first.now n header before position left builder.old
        × RunsTokens from left now.old × HasEnough left }
    ensures { (n : ℕ) (header : List ℕ) (before : List (List ℕ)) (position : ReadTotals)
        (from left : RemainingRoom)
        → StandsInRun first.now n header before position left builder.old
        → RunsTokens from left now.old
        → HasEnough left
        → RunsOn first.now n header before bytes.now position from left now.old builder.old now.new
        builder.new result }
{
    let rest = after_code(bytes);
    let known = KnownKind { kind };
    let objects = builder.count();
    let Some(len) = sound_len(first.head.objects, objects, known, rest) else {
        return 0;
    };
    let mut next = *now;
    if !next.spend(measure_at(known, rest)) {
        return 0;
    }
    if !decode_in_room(builder, known, &rest[..len]) {
        return 0;
    }
    *now = next;
    1 + len
}

/// Reads the next token as `run_kind` does, if the token's code is below the codes of small blocks,
/// integers and strings.
#[tactic(auto, unfolding(marshal_spec::specs::format::Code::kind_of))]
#[inline(always)]
fn run_large(first: &ReadTotals, now: &mut Run, builder: &mut Builder, bytes: &[u8]) -> usize
    requires some { 0 < length bytes.now }
    requires open { 0 < now.old.pending }
    requires runs { (n : ℕ) × (header : List ℕ) × (before : List (List ℕ)) × (position : ReadTotals)
        × (from : RemainingRoom) × (left : RemainingRoom)
        × StandsInRun first.now n header before position left builder.old
        × RunsTokens from left now.old × HasEnough left }
    ensures { (n : ℕ) (header : List ℕ) (before : List (List ℕ)) (position : ReadTotals)
        (from left : RemainingRoom)
        → StandsInRun first.now n header before position left builder.old
        → RunsTokens from left now.old
        → HasEnough left
        → RunsOn first.now n header before bytes.now position from left now.old builder.old now.new
        builder.new result }
{
    match bytes[0] {
        0x00 => run_kind::<0x00>(first, now, builder, CodeKind::Int(1), bytes),
        0x01 => run_kind::<0x01>(first, now, builder, CodeKind::Int(2), bytes),
        0x02 => run_kind::<0x02>(first, now, builder, CodeKind::Int(4), bytes),
        0x03 => run_kind::<0x03>(first, now, builder, CodeKind::Int(8), bytes),
        0x04 => run_kind::<0x04>(first, now, builder, CodeKind::Shared(1), bytes),
        0x05 => run_kind::<0x05>(first, now, builder, CodeKind::Shared(2), bytes),
        0x06 => run_kind::<0x06>(first, now, builder, CodeKind::Shared(4), bytes),
        0x08 => run_kind::<0x08>(first, now, builder, CodeKind::Block(4), bytes),
        0x09 => run_kind::<0x09>(first, now, builder, CodeKind::Str(1), bytes),
        0x0c => run_kind::<0x0c>(first, now, builder, CodeKind::Double(true), bytes),
        _ => 0,
    }
}

/// Reads the next token, if the token surely passes, is not the last one and needs no new memory.
/// Returns the token's length in bytes, or 0 if no token was read. Each of the most common tokens
/// is recognized by one test.
#[tactic(auto, unfolding(marshal_spec::specs::format::Code::kind_of))]
#[inline(always)]
fn run_one(first: &ReadTotals, now: &mut Run, builder: &mut Builder, bytes: &[u8]) -> usize
    requires some { 0 < length bytes.now }
    requires open { 0 < now.old.pending }
    requires runs { (n : ℕ) × (header : List ℕ) × (before : List (List ℕ)) × (position : ReadTotals)
        × (from : RemainingRoom) × (left : RemainingRoom)
        × StandsInRun first.now n header before position left builder.old
        × RunsTokens from left now.old × HasEnough left }
    ensures { (n : ℕ) (header : List ℕ) (before : List (List ℕ)) (position : ReadTotals)
        (from left : RemainingRoom)
        → StandsInRun first.now n header before position left builder.old
        → RunsTokens from left now.old
        → HasEnough left
        → RunsOn first.now n header before bytes.now position from left now.old builder.old now.new
        builder.new result }
{
    let code = bytes[0];
    if code >= 0x80 {
        let size = code / 16 % 8;
        if size == 0 {
            return run_kind::<0x80>(
                first,
                now,
                builder,
                CodeKind::SmallBlock(code % 16, 0),
                bytes,
            );
        }
        let kind = CodeKind::SmallBlock(code % 16, size);
        return run_kind::<0x90>(first, now, builder, kind, bytes);
    }
    if code >= 0x40 {
        return run_kind::<0x40>(first, now, builder, CodeKind::SmallInt(code % 64), bytes);
    }
    if code >= 0x20 {
        return run_kind::<0x20>(first, now, builder, CodeKind::SmallString(code % 32), bytes);
    }
    run_large(first, now, builder, bytes)
}

/// Reads the tokens of the run that begin in the first `most` bytes. Returns the total length of
/// the tokens in bytes and the state of the run. The function is not inlined, and therefore has all
/// registers.
#[inline(never)]
fn run_all(
    first: &ReadTotals,
    begun: Run,
    builder: &mut Builder,
    bytes: &[u8],
    most: usize,
) -> (usize, Run)
    requires open { 0 < begun.pending }
    requires within { most ≤ length bytes.now }
    requires runs { (limit : ℕ) × (taken : List ℕ) × (from : RemainingRoom)
        × LeadsAs (Some first.now) limit taken builder.old []
        × LeavesRoom first.now 0 first.now from
        × RunsTokens from from begun × HasPlenty from most }
    ensures { (limit : ℕ) (taken : List ℕ) (from : RemainingRoom)
        → LeadsAs (Some first.now) limit taken builder.old []
        → LeavesRoom first.now 0 first.now from
        → RunsTokens from from begun → HasPlenty from most
        → RunsAll first.now limit taken bytes.now from result.1 builder.new result.0 }
{
    let mut at = 0;
    let mut now = begun;
    while at < most {
        let n = run_one(first, &mut now, builder, &bytes[at..]);
        if n == 0 {
            return (at, now);
        }
        at += n;
    }
    (at, now)
}

/// Returns the smaller of the two numbers.
#[inline(always)]
fn within(most: usize, len: usize) -> usize
    ensures most { result ≤ most }
    ensures len { result ≤ len }
{
    if most < len { most } else { len }
}

/// Reads a run of common tokens, if the room suffices for the tokens that begin in the first `most`
/// bytes. Returns the total length of the tokens in bytes.
pub fn run(
    first: &ReadTotals,
    left: &mut RemainingRoom,
    builder: &mut Builder,
    bytes: &[u8],
    most: usize,
) -> usize
    requires open { 0 < first.now.pending }
    requires plenty { HasPlenty left.old most }
    requires short { left.old.w32 < 2 ^ 64 }
    requires leaves { LeavesRoom first.now 0 first.now left.old }
    requires leads { (limit : ℕ) × (taken : List ℕ)
        × LeadsAs (Some first.now) limit taken builder.old [] }
    ensures { (limit : ℕ) (taken : List ℕ) → LeadsAs (Some first.now) limit taken builder.old [] →
        TakesAll first.now 0 limit taken bytes.now left.new builder.new result }
{
    let begun = Run {
        pending: left.pending,
        extra: 0,
    };
    let words = builder.words();
    let most = within(most, bytes.len());
    let (n, now) = run_all(first, begun, builder, bytes, most);
    *left = left.after(n as u64, builder.words() - words, now);
    n
}
