//! Parses the text of a value as `show` writes the text, without checking the text.

ghost use Rattle.std.specs.Prelude.{length, IfOk, IfSome, IsTrue};
ghost use Rattle.base_data.specs.model.Graph.{IsValue};

use crate::guess::guess_scanners::{after, ends_block};
use crate::guess::guess_start::{GuessStart, begin};
use crate::guess::guessed_block::GuessedBlock;
use base_data::model::Memory;
use base_data::model::value::Val;
use marshal_heap::heap::{Heap, Kind};
use std::alloc::Global;
use types_table::type_table::TypeTable;

/// The number of bytes of text for each word of memory that `guess` reserves. Few values need more
/// words.
const BYTES_A_WORD: u64 = 3;

/// The greatest number of nested blocks with parts to come. Such blocks take much memory, also when
/// their text is printed again. Beyond this number, `guess` returns nothing. A block whose last
/// part has begun does not count, which allows lists of any length.
const MOST_OPEN: usize = 10_000;

/// Returns true if `v` is a valid value of the heap.
#[inline(always)]
fn is_value(heap: &Heap, v: Val) -> bool
    ensures { IsTrue result → IsValue (length heap.now) v }
{
    match v {
        Val::Int(z) => z >= -(1 << 62) && z < 1 << 62,
        Val::Atom(tag) => tag <= 243,
        Val::Ref(o) => o < heap.count(),
    }
}

/// Writes a value into a field. Returns false if the field does not exist or the value is invalid.
#[inline(always)]
fn write_field(heap: &mut Heap, block: u64, i: u64, v: Val) -> bool {
    if block >= heap.count() || !is_value(heap, v) {
        return false;
    }
    match heap.kind(block) {
        Kind::Block(_, size) if i < size => {
            heap.set(block, i, v);
            true
        }
        _ => false,
    }
}

/// Continues after a part of the innermost block has begun, which may be a block as well. Returns
/// the rest of the text. After the last part, the end of the outer block counts as one of the ends
/// of the inner block.
#[inline(always)]
fn go_on<'a, 't>(
    opens: &mut Vec<GuessedBlock<'a>>,
    open: GuessedBlock<'a>,
    begun: GuessStart<'a, 't>,
) -> Result<&'t [u8], Memory> {
    if open.is_at_last() {
        let Some(inner) = begun.inner else {
            return Ok(after(begun.rest, open.ends));
        };
        opens.push(inner.within(open.ends))?;
        return Ok(begun.rest);
    }
    opens.push(open.advanced())?;
    if let Some(inner) = begun.inner {
        opens.push(inner)?;
    }
    Ok(begun.rest)
}

/// Parses the next part of the innermost block. Returns the rest of the text.
#[inline(always)]
fn read_part<'a, 't>(
    alloc: Global,
    heap: &mut Heap,
    table: &'a TypeTable,
    opens: &mut Vec<GuessedBlock<'a>>,
    open: GuessedBlock<'a>,
    text: &'t [u8],
) -> Result<Option<&'t [u8]>, Memory> {
    let Some(part) = open.after_before(text) else {
        return Ok(None);
    };
    let Some(t) = open.types.get(open.next) else {
        return Ok(None);
    };
    let Some(begun) = begin(alloc, heap, table, *t, part)? else {
        return Ok(None);
    };
    if !write_field(heap, open.block, open.next as u64, begun.value) {
        return Ok(None);
    }
    let rest = go_on(opens, open, begun)?;
    if opens.len() > MOST_OPEN {
        return Ok(None);
    }
    Ok(Some(rest))
}

/// Parses the parts of a block with everything inside the parts. Returns true if the text ends
/// after the parts.
fn read_parts<'a>(
    alloc: Global,
    heap: &mut Heap,
    table: &'a TypeTable,
    block: GuessedBlock<'a>,
    text: &[u8],
) -> Result<bool, Memory> {
    let mut opens = Vec::new(alloc);
    opens.push(block)?;
    let mut rest = text;
    for _ in 0..text.len() {
        let Some(open) = opens.pop() else {
            return Ok(rest.is_empty());
        };
        let Some(more) = read_part(alloc, heap, table, &mut opens, open, rest)? else {
            return Ok(false);
        };
        rest = more;
    }
    Ok(opens.is_empty() && rest.is_empty())
}

/// Parses everything inside a value that has begun. Returns true if the text ends after the value.
fn read_rest<'a>(
    alloc: Global,
    heap: &mut Heap,
    table: &'a TypeTable,
    begun: GuessStart<'a, '_>,
) -> Result<bool, Memory> {
    match begun.inner {
        Some(block) if ends_block(begun.rest) => {
            read_parts(alloc, heap, table, block, begun.rest)
        }
        Some(_) => Ok(false),
        None => Ok(begun.rest.is_empty()),
    }
}

/// Returns a guess at the value with the given text, at the type with number 0. The function reuses
/// the memory of `heap` for the objects. Returns `None` if the function notices that `show` does
/// not write such a text.
pub fn guess(
    alloc: Global,
    heap: &mut Heap,
    table: &TypeTable,
    text: &[u8],
) -> Result<Option<Val>, Memory>
    ensures { IfOk result (λ found. IfSome found (IsValue (length heap.new))) }
{
    heap.clear();
    heap.make_room(text.len() as u64 / BYTES_A_WORD);
    let Some(begun) = begin(alloc, heap, table, 0, text)? else {
        return Ok(None);
    };
    if !read_rest(alloc, heap, table, begun)? || !is_value(heap, begun.value) {
        return Ok(None);
    }
    Ok(Some(begun.value))
}
