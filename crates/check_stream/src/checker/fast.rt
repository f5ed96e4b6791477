//! The fast path for common tokens. The open positions and the remaining words stay in local
//! variables, and nothing is allocated.

ghost use Rattle.std.specs.Prelude.{◌≡◌, ◌<◌, ◌≤◌, ◌+◌, ◌%◌, ◌++◌, [], ◌^◌, ℕ, List, length, Ok};
ghost use Rattle.std.specs.Prelude.{◌∷◌, map, IfSome, IsTrue, MatchOption, slice_index};
ghost use Rattle.std.specs.Prelude.{vec_len, vec_capacity};
ghost use Rattle.std.specs.Bool.{OnTrue};
ghost use Rattle.base_data.specs.declared.model.value.Obj.TheVariants as objects;
ghost use Rattle.types_spec.specs.types.Fitting as fitting;
ghost use Rattle.marshal_spec.specs.format.Code.{IsKind, kind_of};
ghost use Rattle.marshal_spec.specs.format.Raw.{fixed_bytes, variable_bytes};
ghost use Rattle.marshal_spec.specs.format.Token.{block, leaf, word_token};
ghost use Rattle.marshal_codec.specs.headers.Counting.{IsCountable};
ghost use Rattle.types_table.specs.type_table.Made.{table_of};
ghost use Rattle.check_stream.specs.theory.AskedNeeds.{of_type, shape_at, IsBackAt};
ghost use Rattle.check_stream.specs.checker.CheckerState.{Took, TookChunk, TookPrefix, TookFirst};
ghost use Rattle.std.specs.Global.{Vec};
ghost use Rattle.check_stream.specs.declared.checker.open_positions.BlockPositions.{BlockPositions};
ghost use Rattle.check_stream.specs.checker.Fast.{held, IsLeafAdded};
ghost use Rattle.check_stream.specs.checker.OpenPositions.{open_needs, need_of, waiting_needs};
ghost use Rattle.check_stream.specs.declared.checker.open_positions.BlockPositions.TheVariants as
    opens;

use crate::checker::open_positions::{BlockPositions, Requirement, is_done};
use crate::checker::stated_words::Words;
use crate::checker::token_fits::{
    fast_positions, fits_fast_int, is_equal, is_wildcard, shape_of, type_at,
};
use base_data::model::code::{CodeKind, Measure};
use marshal_codec::token::{chunk_len, number_of, signed_of};
use types_spec::types::shape::ShapeOf;
use types_table::leaf_fits::fits_atom;
use types_table::type_table::TypeTable;

/// Returns true if the type of one more object can be stored without allocation, and no mark is
/// due. The first mark is set when the pass begins.
#[inline(always)]
fn has_room(types: &Vec<u16>, ty: usize) -> bool
    ensures { OnTrue result ((ty < 2 ^ 16) × (vec_len types.now < vec_capacity types.now)) }
{
    if ty >= 1 << 16 || types.len() > 0 && types.len() % 64 == 0 {
        return false;
    }
    types.len() < types.capacity()
}

/// Pushes the open positions on the stack if there are any. Returns false if the stack is full.
#[tactic(auto, using(crate::proofs::checker::CheckerPositionLemmas::waiting_needs_push))]
#[inline(always)]
fn keep_reserved<'a>(waiting: &mut Vec<BlockPositions<'a>>, others: BlockPositions<'a>) -> bool
    ensures added { IsTrue result
        → waiting_needs waiting.new.items
        ≡ open_needs others.entry ++ waiting_needs waiting.old.items }
    ensures kept { (IsTrue result → ⊥) → waiting.new ≡ waiting.old }
{
    if is_done(others) {
        return true;
    }
    if waiting.len() >= waiting.capacity() {
        return false;
    }
    waiting.push_reserved(others);
    true
}

/// Reads a block. The positions of the block's fields are opened before all others.
#[inline(always)]
fn fast_block<'a>(
    table: &'a TypeTable,
    ty: usize,
    others: BlockPositions<'a>,
    tag: u8,
    size: u64,
    types: &mut Vec<u16>,
    waiting: &mut Vec<BlockPositions<'a>>,
    words: &mut Words,
) -> Option<BlockPositions<'a>>
    requires { size < 2 ^ 60 }
    ensures { MatchOption result
        (held others.entry waiting.new types.new words.new
        ≡ held others.entry waiting.old types.old words.old)
        (λ now. Took (table_of table.now) (held others.entry waiting.old types.old words.old)
        (held now waiting.new types.new words.new) (of_type ty) (block tag size)) }
{
    let Some(shape) = shape_of(table, ty) else {
        return None;
    };
    let Some(inside) = fast_positions(shape, ty, tag, size) else {
        return None;
    };
    if words.w32 <= size || words.w64 <= size || !has_room(types, ty) {
        return None;
    }
    if !keep_reserved(waiting, others) {
        return None;
    }
    types.push_reserved(ty as u16);
    words.w32 -= 1 + size;
    words.w64 -= 1 + size;
    Some(inside)
}

/// Reads the block with this header word. If the header word is that of an atom, the general path
/// reads the atom.
#[inline(always)]
fn fast_word<'a>(
    table: &'a TypeTable,
    ty: usize,
    others: BlockPositions<'a>,
    word: u64,
    types: &mut Vec<u16>,
    waiting: &mut Vec<BlockPositions<'a>>,
    words: &mut Words,
) -> Option<BlockPositions<'a>>
    ensures { MatchOption result
        (held others.entry waiting.new types.new words.new
        ≡ held others.entry waiting.old types.old words.old)
        (λ now. (word % 256 ≤ 243)
        × Took (table_of table.now) (held others.entry waiting.old types.old words.old)
        (held now waiting.new types.new words.new) (of_type ty) (word_token word)) }
{
    let tag = word % 256;
    let size = word / 1024;
    if tag > 243 || size == 0 {
        return None;
    }
    fast_block(table, ty, others, tag as u8, size, types, waiting, words)
}

/// Returns true if an atom with this tag has the type.
#[inline(always)]
fn is_fast_atom(table: &TypeTable, ty: usize, tag: u8) -> bool
    ensures { OnTrue result
        (IsTrue (fitting.fits_atom (shape_at (table_of table.now) ty) tag)) }
{
    match shape_of(table, ty) {
        Some(shape) => fits_atom(shape, tag),
        None => false,
    }
}

/// Returns true if an integer has the type.
#[inline(always)]
fn is_fast_int(table: &TypeTable, ty: usize, z: i64) -> bool
    ensures { OnTrue result (IsTrue (fitting.fits_int (shape_at (table_of table.now) ty) z)) }
{
    match shape_of(table, ty) {
        Some(shape) => fits_fast_int(shape, z),
        None => false,
    }
}

/// Reads an object without fields, if the memory and the remaining words have room for the object.
#[inline(always)]
fn fast_leaf(ty: usize, measure: Measure, types: &mut Vec<u16>, words: &mut Words) -> bool
    requires { IsCountable measure }
    ensures added { IsTrue result → IsLeafAdded ty measure types.old types.new words.old words.new }
    ensures kept { (IsTrue result → ⊥) → (types.new ≡ types.old) × (words.new ≡ words.old) }
{
    if !has_room(types, ty) {
        return false;
    }
    let Some(left) = words.after(measure) else {
        return false;
    };
    *words = left;
    types.push_reserved(ty as u16);
    true
}

/// Reads a string of `size` bytes, if the type allows strings.
#[inline(always)]
fn fast_bytes(
    table: &TypeTable,
    ty: usize,
    size: u64,
    types: &mut Vec<u16>,
    words: &mut Words,
) -> bool
    requires { size < 2 ^ 60 }
    ensures took { IsTrue result
        → (now : BlockPositions) (waiting : Vec BlockPositions) (all : List ℕ) → length all ≡ size
        → Took (table_of table.now) (held now waiting types.old words.old)
        (held now waiting types.new words.new) (of_type ty) (leaf (objects.Bytes all)) }
    ensures kept { (IsTrue result → ⊥) → (types.new ≡ types.old) × (words.new ≡ words.old) }
{
    let Some(shape) = shape_of(table, ty) else {
        return false;
    };
    match shape {
        ShapeOf::Bytes(_) => fast_leaf(ty, Measure::Bytes(size), types, words),
        _ => is_wildcard(table, ty) && fast_leaf(ty, Measure::Bytes(size), types, words),
    }
}

/// Reads a double, if the type allows doubles.
#[inline(always)]
fn fast_double(table: &TypeTable, ty: usize, types: &mut Vec<u16>, words: &mut Words) -> bool
    ensures took { IsTrue result
        → (now : BlockPositions) (waiting : Vec BlockPositions) (bits : ℕ)
        → Took (table_of table.now) (held now waiting types.old words.old)
        (held now waiting types.new words.new) (of_type ty) (leaf (objects.Double bits)) }
    ensures kept { (IsTrue result → ⊥) → (types.new ≡ types.old) × (words.new ≡ words.old) }
{
    let Some(shape) = shape_of(table, ty) else {
        return false;
    };
    match shape {
        ShapeOf::Double => fast_leaf(ty, Measure::Double, types, words),
        _ => is_wildcard(table, ty) && fast_leaf(ty, Measure::Double, types, words),
    }
}

/// Returns true if the reference with this offset leads to an object of an equal type, or if the
/// position is a wildcard.
#[inline(always)]
fn is_fast_back(table: &TypeTable, types: &[u16], ty: usize, offset: u64) -> bool
    ensures { OnTrue result
        ((1 ≤ offset) × (offset ≤ length types.now)
        × IsBackAt [] (table_of table.now) types.now ty offset) }
{
    let made = types.len() as u64;
    if offset == 0 || made < offset {
        return false;
    }
    is_equal(table, type_at(types, (made - offset) as usize), ty) || is_wildcard(table, ty)
}

/// Reads a token of this kind from the bytes that follow the token's code. Returns the positions
/// that are open in the innermost block after the token. If the token is not accepted, returns
/// `None`.
#[inline(always)]
fn fast_chunk<'a>(
    table: &'a TypeTable,
    stated: u64,
    ty: usize,
    others: BlockPositions<'a>,
    kind: CodeKind,
    chunk: &[u8],
    types: &mut Vec<u16>,
    waiting: &mut Vec<BlockPositions<'a>>,
    words: &mut Words,
) -> Option<BlockPositions<'a>>
    requires known { IsKind kind }
    requires whole { length chunk.now ≡ fixed_bytes kind + variable_bytes kind chunk.now }
    ensures { MatchOption result
        (held others.entry waiting.new types.new words.new
        ≡ held others.entry waiting.old types.old words.old)
        (λ now. TookChunk (table_of table.now) stated
        (held others.entry waiting.old types.old words.old)
        (held now waiting.new types.new words.new) (of_type ty) kind chunk.now) }
{
    match kind {
        CodeKind::SmallBlock(tag, size) => {
            if size == 0 {
                if is_fast_atom(table, ty, tag) {
                    return Some(others);
                }
                return None;
            }
            fast_block(
                table,
                ty,
                others,
                tag,
                u64::from(size),
                types,
                waiting,
                words,
            )
        }
        CodeKind::SmallInt(value) => {
            if is_fast_int(table, ty, i64::from(value)) {
                Some(others)
            } else {
                None
            }
        }
        CodeKind::SmallString(len) => {
            if fast_bytes(table, ty, u64::from(len), types, words) {
                Some(others)
            } else {
                None
            }
        }
        CodeKind::Int(_) => {
            let z = signed_of(chunk);
            if z >= -(1 << 62) && z < 1 << 62 && is_fast_int(table, ty, z) {
                Some(others)
            } else {
                None
            }
        }
        CodeKind::Shared(_) => {
            let offset = number_of(chunk);
            if stated > 0 && is_fast_back(table, types.as_slice(), ty, offset) {
                Some(others)
            } else {
                None
            }
        }
        CodeKind::Block(_) => {
            let word = number_of(chunk);
            fast_word(table, ty, others, word, types, waiting, words)
        }
        CodeKind::Double(_) => {
            if fast_double(table, ty, types, words) {
                Some(others)
            } else {
                None
            }
        }
        CodeKind::Str(width) => {
            let len = (chunk.len() - usize::from(width)) as u64;
            if len < 1 << 60 && fast_bytes(table, ty, len, types, words) {
                Some(others)
            } else {
                None
            }
        }
        _ => None,
    }
}

/// Reads the token of this kind at the beginning of `rest`. Returns the token's length in bytes and
/// the positions that are open in the innermost block after the token. If the token is not
/// accepted, returns `None`.
#[inline(always)]
fn fast_kind<'a>(
    table: &'a TypeTable,
    stated: u64,
    ty: usize,
    others: BlockPositions<'a>,
    kind: CodeKind,
    rest: &[u8],
    types: &mut Vec<u16>,
    waiting: &mut Vec<BlockPositions<'a>>,
    words: &mut Words,
) -> Option<(usize, BlockPositions<'a>)>
    requires some { 0 < length rest.now }
    requires kind { kind_of (slice_index rest.now 0) ≡ Ok kind }
    requires known { IsKind kind }
    ensures { MatchOption result
        (held others.entry waiting.new types.new words.new
        ≡ held others.entry waiting.old types.old words.old)
        (λ took. TookPrefix (table_of table.now) stated
        (held others.entry waiting.old types.old words.old)
        (held took.1 waiting.new types.new words.new) (of_type ty) rest.now took.0) }
{
    let after = &rest[1..];
    let Some(len) = chunk_len(kind, after) else {
        return None;
    };
    match fast_chunk(
        table,
        stated,
        ty,
        others,
        kind,
        &after[..len],
        types,
        waiting,
        words,
    ) {
        Some(now) => Some((1 + len, now)),
        None => None,
    }
}

/// Reads the first token of `rest`, if the token's code is below 0x20 and has no branch in
/// `fast_typed`. Each value of `LISTED` has one caller.
#[tactic(auto, unfolding(marshal_spec::specs::format::Code::kind_of))]
#[inline(always)]
fn fast_large<'a, const LISTED: bool>(
    table: &'a TypeTable,
    stated: u64,
    ty: usize,
    others: BlockPositions<'a>,
    code: u8,
    rest: &[u8],
    types: &mut Vec<u16>,
    waiting: &mut Vec<BlockPositions<'a>>,
    words: &mut Words,
) -> Option<(usize, BlockPositions<'a>)>
    requires some { 0 < length rest.now }
    requires code { slice_index rest.now 0 ≡ code }
    ensures { MatchOption result
        (held others.entry waiting.new types.new words.new
        ≡ held others.entry waiting.old types.old words.old)
        (λ took. TookPrefix (table_of table.now) stated
        (held others.entry waiting.old types.old words.old)
        (held took.1 waiting.new types.new words.new) (of_type ty) rest.now took.0) }
{
    match code {
        0x00 => {
            let kind = CodeKind::Int(1);
            fast_kind(table, stated, ty, others, kind, rest, types, waiting, words)
        }
        0x01 => {
            let kind = CodeKind::Int(2);
            fast_kind(table, stated, ty, others, kind, rest, types, waiting, words)
        }
        0x02 => {
            let kind = CodeKind::Int(4);
            fast_kind(table, stated, ty, others, kind, rest, types, waiting, words)
        }
        0x03 => {
            let kind = CodeKind::Int(8);
            fast_kind(table, stated, ty, others, kind, rest, types, waiting, words)
        }
        0x04 => {
            let kind = CodeKind::Shared(1);
            fast_kind(table, stated, ty, others, kind, rest, types, waiting, words)
        }
        0x05 => {
            let kind = CodeKind::Shared(2);
            fast_kind(table, stated, ty, others, kind, rest, types, waiting, words)
        }
        0x06 => {
            let kind = CodeKind::Shared(4);
            fast_kind(table, stated, ty, others, kind, rest, types, waiting, words)
        }
        0x08 => {
            let kind = CodeKind::Block(4);
            fast_kind(table, stated, ty, others, kind, rest, types, waiting, words)
        }
        0x09 => {
            let kind = CodeKind::Str(1);
            fast_kind(table, stated, ty, others, kind, rest, types, waiting, words)
        }
        _ => None,
    }
}

/// Reads the first token of `rest` if the token is common and has the type. `LISTED` distinguishes
/// the two callers. The function is large, and the compiler inlines an instance only if the
/// instance has one caller.
#[tactic(auto, unfolding(marshal_spec::specs::format::Code::kind_of))]
#[inline(always)]
fn fast_typed<'a, const LISTED: bool>(
    table: &'a TypeTable,
    stated: u64,
    ty: usize,
    others: BlockPositions<'a>,
    rest: &[u8],
    types: &mut Vec<u16>,
    waiting: &mut Vec<BlockPositions<'a>>,
    words: &mut Words,
) -> Option<(usize, BlockPositions<'a>)>
    ensures { MatchOption result
        (held others.entry waiting.new types.new words.new
        ≡ held others.entry waiting.old types.old words.old)
        (λ took. TookPrefix (table_of table.now) stated
        (held others.entry waiting.old types.old words.old)
        (held took.1 waiting.new types.new words.new) (of_type ty) rest.now took.0) }
{
    if rest.is_empty() {
        return None;
    }
    let code = rest[0];
    // Each of these codes has a separate branch, and blocks are tested first. The test of the
    // length between the branches keeps the compiler from merging the test for a double with the
    // choice among the remaining codes.
    if code >= 0x80 {
        let kind = CodeKind::SmallBlock(code % 16, code / 16 % 8);
        fast_kind(table, stated, ty, others, kind, rest, types, waiting, words)
    } else if code >= 0x40 {
        let kind = CodeKind::SmallInt(code % 64);
        fast_kind(table, stated, ty, others, kind, rest, types, waiting, words)
    } else if code >= 0x20 {
        let kind = CodeKind::SmallString(code % 32);
        fast_kind(table, stated, ty, others, kind, rest, types, waiting, words)
    } else if code == 0x0c {
        let kind = CodeKind::Double(true);
        fast_kind(table, stated, ty, others, kind, rest, types, waiting, words)
    } else if rest.len() < 2 {
        None
    } else {
        fast_large::<LISTED>(table, stated, ty, others, code, rest, types, waiting, words)
    }
}

/// Reads the first token of `rest` if the token is common and satisfies the requirement.
#[inline(always)]
pub fn fast<'a>(
    table: &'a TypeTable,
    stated: u64,
    asked: Requirement<'a>,
    others: BlockPositions<'a>,
    rest: &[u8],
    types: &mut Vec<u16>,
    waiting: &mut Vec<BlockPositions<'a>>,
    words: &mut Words,
) -> Option<(usize, BlockPositions<'a>)>
    ensures { MatchOption result
        (held others.entry waiting.new types.new words.new
        ≡ held others.entry waiting.old types.old words.old)
        (λ took. TookPrefix (table_of table.now) stated
        (held others.entry waiting.old types.old words.old)
        (held took.1 waiting.new types.new words.new) (need_of asked.entry) rest.now took.0) }
{
    let Requirement::Type(ty) = asked else {
        return None;
    };
    fast_typed::<false>(table, stated, ty, others, rest, types, waiting, words)
}

/// Returns the type of the first position in the list, and the remaining positions.
#[inline(always)]
fn split_listed<'a>(positions: &'a [usize]) -> Option<(usize, BlockPositions<'a>)>
    ensures { IfSome result
        (λ first. map of_type positions.now ≡ of_type first.0 ∷ open_needs first.1) }
{
    if positions.is_empty() {
        return None;
    }
    Some((positions[0], BlockPositions::Listed(&positions[1..])))
}

/// Reads the first token of `rest` if the token is common and the innermost block has a list of
/// types for its positions. Blocks with a list of types have a separate copy of the code.
#[inline(always)]
pub fn fast_listed<'a>(
    table: &'a TypeTable,
    stated: u64,
    positions: &'a [usize],
    rest: &[u8],
    types: &mut Vec<u16>,
    waiting: &mut Vec<BlockPositions<'a>>,
    words: &mut Words,
) -> Option<(usize, BlockPositions<'a>)>
    ensures { MatchOption result
        (held (opens.Listed positions.entry) waiting.new types.new words.new
        ≡ held (opens.Listed positions.entry) waiting.old types.old words.old)
        (λ took. TookFirst (table_of table.now) stated
        (held (opens.Listed positions.entry) waiting.old types.old words.old)
        (held took.1 waiting.new types.new words.new) rest.now took.0) }
{
    let Some((ty, others)) = split_listed(positions) else {
        return None;
    };
    fast_typed::<true>(table, stated, ty, others, rest, types, waiting, words)
}
