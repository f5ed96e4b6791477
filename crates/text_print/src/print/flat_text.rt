//! Fast path for values in which clearly no object occurs twice. The fast path prints without a
//! traversal.

ghost use Rattle.std.specs.Prelude.{◌≡◌, ◌<◌, length, IfOk, IsTrue};
ghost use Rattle.base_data.specs.declared.model.value.Val.TheVariants as vals;
ghost use Rattle.types_spec.specs.types.Fitting.{is_asked};
ghost use Rattle.marshal_heap.specs.heap.Heap.{word_of};
ghost use Rattle.text_print.specs.show.ShownValues.{shown_text};
ghost use Rattle.text_print.specs.show.TableShapes.{shape_in, names_in};
ghost use Rattle.types_table.specs.type_table.Made.{table_of};
ghost use Rattle.text_print.specs.print.FlatText.{WritesWhole, WritesFlat, WritesParts};
ghost use Rattle.text_print.specs.print.Typed.{IsTypedAt};
ghost use Rattle.text_print.specs.print.PrintWalk.{IsOpen};

use crate::leaves::{write_few, write_int_at};
use crate::print::ends::{end_of, write_end};
use crate::print::open_block::OpenBlock;
use crate::print::print_walk::{open_block, value_at};
use crate::print::text_until_again::{word_at, write_leaf};
use base_data::model::Memory;
use base_data::model::value::Val;
use check_heap::fits::is_asked;
use marshal_heap::heap::{Heap, Kind, NumberedObject, Rooted};
use types_table::type_table::TypeTable;

// The maximal number of parts of an object on the fast path.
const FEW: u64 = 8;

/// Appends the text of an integer, of an object without parts, or of an object with few parts that
/// have no parts. The objects among the parts must have ascending numbers. If `write_flat` returns
/// true, the whole text was appended, and if `write_flat` returns false, some bytes may have been
/// appended.
pub fn write_flat(
    text: &mut Vec<u8>,
    value: &Rooted<'_>,
    table: &TypeTable,
    at: usize,
) -> Result<bool, Memory>
    requires typed { IsTypedAt (table_of table.now) value.now.heap.now value.now.root at }
    ensures { IfOk result
        (WritesWhole (shown_text (shape_in table.now) (names_in table.now) value.now.heap.now
        value.now.root at)
        text.old.items text.new.items) }
{
    let shape = table.shape(at);
    if !is_asked(shape) {
        return Ok(false);
    }
    match value.root {
        Val::Int(z) => {
            write_int_at(text, z, shape, table.names(at))?;
            Ok(true)
        }
        Val::Atom(_) => Ok(false),
        Val::Ref(o) => {
            let placed = NumberedObject {
                heap: value.heap,
                object: o,
            };
            write_flat_object(text, &placed, table, at)
        }
    }
}

// Appends the text of an object without parts, or of an object with few parts that have no parts.
// If `write_flat_object` returns true, the whole text was appended.
#[inline(always)]
fn write_flat_object(
    text: &mut Vec<u8>,
    placed: &NumberedObject<'_>,
    table: &TypeTable,
    at: usize,
) -> Result<bool, Memory>
    requires typed { IsTypedAt (table_of table.now) placed.now.heap.now
        (vals.Ref placed.now.object) at }
    requires asked { IsTrue (is_asked (shape_in table.now at)) }
    ensures { IfOk result
        (WritesWhole (shown_text (shape_in table.now) (names_in table.now) placed.now.heap.now
        (vals.Ref placed.now.object) at)
        text.old.items text.new.items) }
{
    let heap = placed.heap;
    let word = heap.word(Val::Ref(placed.object));
    let Kind::Block(tag, _) = heap.kind_at(word) else {
        write_leaf(text, heap, table, placed.object, word, at)?;
        return Ok(true);
    };
    let block = open_block(placed, table, word, tag, at, 0);
    if block.needs.len() > FEW {
        return Ok(false);
    }
    block.frame.write_opening(text)?;
    let whole = write_flat_parts(text, heap, table, &block)?;
    Ok(whole)
}

// Appends the parts of a block and the text after the parts. Stops at the first part that the fast
// path cannot print. If `write_flat_parts` returns true, all parts were appended.
#[inline(always)]
fn write_flat_parts(
    text: &mut Vec<u8>,
    heap: &Heap,
    table: &TypeTable,
    block: &OpenBlock<'_>,
) -> Result<bool, Memory>
    requires open { IsOpen table.now heap.now block.now }
    ensures { IfOk result
        (WritesParts table.now heap.now block.now text.old.items text.new.items) }
{
    let _count = heap.count();
    let many = block.needs.len();
    let mut last = block.object;
    let mut k = 0;
    while k < many {
        let (i, at) = block.needs.get(k);
        block.frame.write_before(text, k)?;
        let v = value_at(heap, block.fields, i, last + 1);
        let word = word_at(block.fields, i);
        let value = Rooted { heap, root: v };
        let Some(next) = write_flat_part(text, &value, table, word, at, last)? else {
            return Ok(false);
        };
        last = next;
        k += 1;
    }
    write_end(text, end_of(&block.frame))?;
    Ok(true)
}

// Appends the value of a word if the value has no parts and is not an object up to number `last`.
// Returns the greatest number of an object that may have been visited, or `None` if the value is
// not printed.
#[inline(always)]
fn write_flat_part(
    text: &mut Vec<u8>,
    value: &Rooted<'_>,
    table: &TypeTable,
    word: u64,
    at: usize,
    last: u64,
) -> Result<Option<u64>, Memory>
    requires last { last < length value.now.heap.now }
    requires word { word ≡ word_of value.now.heap.now value.now.root }
    requires typed { IsTypedAt (table_of table.now) value.now.heap.now value.now.root at }
    ensures { IfOk result
        (WritesFlat table.now value.now.heap.now value.now.root at last text.old.items
        text.new.items) }
{
    let heap = value.heap;
    let shape = table.shape(at);
    if !is_asked(shape) {
        write_few(text, b"_")?;
        return Ok(Some(last));
    }
    match value.root {
        Val::Int(z) => {
            write_int_at(text, z, shape, table.names(at))?;
            Ok(Some(last))
        }
        Val::Atom(_) => {
            write_few(text, b"[||]")?;
            Ok(Some(last))
        }
        Val::Ref(o) => {
            if o <= last {
                return Ok(None);
            }
            let Kind::Block(_, _) = heap.kind_at(word) else {
                write_leaf(text, heap, table, o, word, at)?;
                return Ok(Some(o));
            };
            Ok(None)
        }
    }
}
