//! Fast path: sufficient conditions for a match, decided by 64-bit words alone.

ghost use Rattle.std.specs.Prelude.{◌≡◌, ◌⊎◌, ◌<◌, ◌≤◌, ◌%◌, ℕ, ℤ, length, IsTrue, IsSome};
ghost use Rattle.base_data.specs.model.Graph.{IsInteger, IsValue};
ghost use Rattle.base_data.specs.declared.model.value.Val.{Val};
ghost use Rattle.types_spec.specs.declared.types.shape.ShapeOf.{ShapeOf};
ghost use Rattle.types_spec.specs.types.Fitting as fitting;
ghost use Rattle.marshal_heap.specs.heap.Heap.{integer_word, word_of, IsFieldWord};
ghost use Rattle.check_heap.specs.fits.ObjectRow.{IsRowOf, IsSized, IsFirstHeader, Agree, IsNear};
ghost use Rattle.check_heap.specs.fits.ObjectRow.{IsSizeAt};
ghost use Rattle.std.specs.Bool.{OnTrue};

use marshal_heap::heap::Heap;
use types_spec::types::shape::{Constr, ShapeOf};

/// A tag that no header has.
const NONE: u64 = 1023;

/// Conditions on 64-bit words under which a value matches a shape. For all other values, `needs_of`
/// decides.
#[derive(Clone, Copy)]
pub struct WordConditions {
    /// An integer matches if its word is at most this number.
    pub most: u64,
    /// An object matches if its header is at least this number and at most this number plus `more`.
    pub header: u64,
    /// The number of headers directly after `header` that also match.
    pub more: u64,
    /// An object matches if its header has this tag.
    pub tag: u64,
}

/// Returns the row of a shape, which are conditions on words under which a value matches.
pub fn row_of(shape: &ShapeOf<usize>) -> WordConditions
    ensures { IsRowOf shape.now result }
{
    match shape {
        ShapeOf::AnyInt => WordConditions {
            most: u64::MAX,
            header: NONE,
            more: 0,
            tag: NONE,
        },
        ShapeOf::Below(limit) => WordConditions {
            most: most_below(*limit),
            header: NONE,
            more: 0,
            tag: NONE,
        },
        ShapeOf::Bytes(_) => row_of_tag(252),
        ShapeOf::Double => row_of_tag(253),
        ShapeOf::FloatArray => row_of_tag(254),
        ShapeOf::ArrayOf(_) | ShapeOf::ArrayOfAnything(_) => row_of_tag(0),
        ShapeOf::Product(_, types) => WordConditions {
            most: 0,
            header: header_of_fields(types.len()),
            more: 0,
            tag: NONE,
        },
        ShapeOf::Sum(constants, blocks) => WordConditions {
            most: most_below(*constants),
            header: first_header(blocks.as_slice()),
            more: more_agree(blocks.as_slice()),
            tag: NONE,
        },
        ShapeOf::Anything => WordConditions {
            most: u64::MAX,
            header: 0,
            more: u64::MAX,
            tag: NONE,
        },
        _ => row_of_tag(NONE),
    }
}

/// Returns the row that only objects with the tag `tag` satisfy.
fn row_of_tag(tag: u64) -> WordConditions
    ensures { result ≡ record { most = 0; header = 1023; more = 0; tag = tag } }
{
    WordConditions {
        most: 0,
        header: NONE,
        more: 0,
        tag,
    }
}

/// Returns the word of the last integer below a limit.
fn most_below(limit: u64) -> u64
    ensures { (z : ℤ) → IsInteger z → integer_word z ≤ result → IsTrue (fitting.is_below limit z) }
{
    if limit < 1 << 62 {
        (2 * limit).saturating_sub(1)
    } else {
        (1 << 63) - 1
    }
}

/// Returns the header of a block with tag 0 and `size` fields.
fn header_of_fields(size: usize) -> u64
    ensures { IsSized result size }
{
    if size < 1 << 53 {
        size as u64 * 1024
    } else {
        NONE
    }
}

/// Returns the header of the first constructor with arguments.
fn first_header(blocks: &[Constr<usize>]) -> u64
    ensures { IsFirstHeader blocks.now result }
{
    if blocks.is_empty() {
        NONE
    } else {
        header_of_fields(blocks[0].fields.len())
    }
}

/// Returns how many constructors directly after the first one have the same number of fields. Only
/// tags below 244 are counted.
fn more_agree(blocks: &[Constr<usize>]) -> u64
    ensures { Agree blocks.now result }
{
    if blocks.is_empty() {
        return 0;
    }
    let size = size_at(blocks, 0);
    if size >= 1 << 53 {
        return 0;
    }
    let mut more = 0;
    while more < 243 && more + 1 < blocks.len() {
        if size_at(blocks, more + 1) != size {
            return more as u64;
        }
        more += 1;
    }
    more as u64
}

/// Returns the number of fields of constructor `k`.
fn size_at(blocks: &[Constr<usize>], k: usize) -> usize
    requires { k < length blocks.now }
    ensures { IsSizeAt blocks.now k result }
{
    blocks[k].fields.len()
}

/// Returns true if the header shows that an object matches the shape of the row.
#[inline(always)]
fn is_of(row: WordConditions, header: u64) -> bool
    ensures { OnTrue result (IsNear row header ⊎ (header % 1024 ≡ row.tag)) }
{
    header >= row.header && header - row.header <= row.more || header % 1024 == row.tag
}

/// Returns true if the word shows that the value matches the shape of the row. If the result is
/// false, the value may still match.
#[inline(always)]
pub fn surely_fits(heap: &Heap, row: WordConditions, word: u64) -> bool
    requires word { IsFieldWord heap.now word }
    ensures { (shape : ShapeOf ℕ) (v : Val) → IsTrue result → IsRowOf shape row
        → IsValue (length heap.now) v → word ≡ word_of heap.now v
        → IsSome (fitting.fields_of heap.now v shape) }
{
    let _count = heap.count();
    if word % 2 == 1 {
        return word <= row.most;
    }
    if word % 8 != 0 {
        return false;
    }
    is_of(row, heap.header_at(word))
}
