//! The text of the remaining values, as long as no object occurs again.

ghost use Rattle.std.specs.Prelude.{◌≡◌, ◌<◌, ◌≤◌, ◌+◌, ◌++◌, length, Some, None, [], true, false};
ghost use Rattle.std.specs.Prelude.{slice_index, slice_index_or, IfOk, IsTrue, OnOk, vec_len};
ghost use Rattle.base_data.specs.declared.model.value.Val.TheVariants as vals;
ghost use Rattle.base_data.specs.declared.model.value.Obj.TheVariants as objects;
ghost use Rattle.types_spec.specs.types.Fitting.{is_asked};
ghost use Rattle.marshal_heap.specs.heap.Heap.{object_at, fields_of, word_of};
ghost use Rattle.text_print.specs.leaves.Frames.{object_text};
ghost use Rattle.text_print.specs.show.TableShapes.{shape_in, names_in};
ghost use Rattle.types_table.specs.type_table.Made.{table_of};
ghost use Rattle.text_print.specs.print.PrintLevels.{levels_of, last_outside};
ghost use Rattle.text_print.specs.print.Typed.{IsTypedAt};
ghost use Rattle.text_print.specs.declared.print.print_walk.PrintStep.TheVariants as steps;
ghost use Rattle.text_print.specs.print.PrintWalk.{left_of, chunks_left, IsStep, IsWalk};
ghost use Rattle.text_print.specs.print.TextUntilAgain.{IsWrittenOn, IsOpened};

use crate::leaves::{write_few, write_int_at, write_object_at};
use crate::print::ends::{end_of, write_end};
use crate::print::open_block::OpenBlock;
use crate::print::print_walk::{PrintWalk, open_block, value_at};
use base_data::model::Memory;
use base_data::model::value::Val;
use check_heap::fits::is_asked;
use marshal_heap::heap::{Heap, Kind, NumberedObject, Rooted};
use types_table::type_table::TypeTable;

/// Appends the text of the remaining values up to the first object that occurs again. Returns true
/// if no object occurred again.
pub fn write_until_again<'a>(
    text: &mut Vec<u8>,
    heap: &'a Heap,
    table: &'a TypeTable,
    walk: &mut PrintWalk<'a>,
) -> Result<bool, Memory>
    requires walk { IsWalk table.now heap.now walk.old }
    ensures write { IfOk result
        (λ _. IsWrittenOn table.now heap.now
        (chunks_left table.now heap.now walk.old) walk.old.order
        text.old.items text.new.items walk.new) }
    ensures all { IfOk result
        (λ whole. whole ≡ true → chunks_left table.now heap.now walk.new ≡ []) }
{
    let mut fresh = write_next(text, heap, table, walk)?;
    while fresh && !walk.has_none() {
        fresh = write_part(text, heap, table, walk)?;
    }
    Ok(fresh)
}

/// Appends text of the remaining values until a given number of bytes was appended. Returns true if
/// no object occurred again.
pub fn write_some<'a>(
    text: &mut Vec<u8>,
    heap: &'a Heap,
    table: &'a TypeTable,
    walk: &mut PrintWalk<'a>,
    few: usize,
) -> Result<bool, Memory>
    requires walk { IsWalk table.now heap.now walk.old }
    ensures none { IfOk result (λ fresh. fresh ≡ true → walk.new.value ≡ None) }
    ensures write { IfOk result
        (λ _. IsWrittenOn table.now heap.now
        (chunks_left table.now heap.now walk.old) walk.old.order
        text.old.items text.new.items walk.new) }
{
    let mut fresh = write_next(text, heap, table, walk)?;
    while fresh && text.len() < few && !walk.has_none() {
        fresh = write_part(text, heap, table, walk)?;
    }
    Ok(fresh)
}

// Appends the beginning of the next value, if there is a next value and the value is not an object
// that occurred before.
fn write_next<'a>(
    text: &mut Vec<u8>,
    heap: &'a Heap,
    table: &'a TypeTable,
    walk: &mut PrintWalk<'a>,
) -> Result<bool, Memory>
    requires walk { IsWalk table.now heap.now walk.old }
    ensures none { IfOk result (λ fresh. fresh ≡ true → walk.new.value ≡ None) }
    ensures write { IfOk result
        (λ _. IsWrittenOn table.now heap.now
        (chunks_left table.now heap.now walk.old) walk.old.order
        text.old.items text.new.items walk.new) }
{
    let Some((v, at)) = walk.value else {
        return Ok(true);
    };
    walk.value = None;
    let value = Rooted { heap, root: v };
    let fresh = write_value(text, &value, table, walk, heap.word(v), at)?;
    Ok(fresh)
}

// Appends the end at the innermost level, or the next text of the innermost block.
#[inline(always)]
fn write_part<'a>(
    text: &mut Vec<u8>,
    heap: &'a Heap,
    table: &'a TypeTable,
    walk: &mut PrintWalk<'a>,
) -> Result<bool, Memory>
    requires walk { IsWalk table.now heap.now walk.old }
    requires none { walk.old.value ≡ None }
    requires inside { 0 < vec_len walk.old.stack + vec_len walk.old.ends }
    ensures none { IfOk result (λ fresh. fresh ≡ true → walk.new.value ≡ None) }
    ensures fewer { IfOk result
        (λ _. length (chunks_left table.now heap.now walk.new)
        < length (chunks_left table.now heap.now walk.old)) }
    ensures write { IfOk result
        (λ _. IsWrittenOn table.now heap.now
        (chunks_left table.now heap.now walk.old) walk.old.order
        text.old.items text.new.items walk.new) }
{
    if walk.has_end() {
        let last = walk.ends.len() - 1;
        let end = walk.ends[last];
        walk.ends.truncate(last);
        write_end(text, end)?;
        return Ok(true);
    }
    write_in(text, heap, table, walk)
}

// Appends the text before the next part of the innermost block, and the beginning of the part. If
// the block has no next part, appends the text after the last part.
#[inline(always)]
fn write_in<'a>(
    text: &mut Vec<u8>,
    heap: &'a Heap,
    table: &'a TypeTable,
    walk: &mut PrintWalk<'a>,
) -> Result<bool, Memory>
    requires walk { IsWalk table.now heap.now walk.old }
    requires none { walk.old.value ≡ None }
    requires inside { 0 < vec_len walk.old.stack }
    requires innermost { vec_len walk.old.ends ≤ last_outside 0 walk.old.stack.items }
    ensures none { IfOk result (λ fresh. fresh ≡ true → walk.new.value ≡ None) }
    ensures fewer { IfOk result
        (λ _. length (chunks_left table.now heap.now walk.new)
        < length (chunks_left table.now heap.now walk.old)) }
    ensures write { IfOk result
        (λ _. IsWrittenOn table.now heap.now
        (chunks_left table.now heap.now walk.old) walk.old.order
        text.old.items text.new.items walk.new) }
{
    let last = walk.stack.len() - 1;
    let block = &walk.stack[last];
    let Some((i, at)) = block.next_need() else {
        write_end(text, end_of(&block.frame))?;
        walk.stack.truncate(last);
        return Ok(true);
    };
    block.frame.write_before(text, block.next)?;
    let v = value_at(heap, block.fields, i, walk.order.next());
    let word = word_at(block.fields, i);
    let next = block.next + 1;
    let end = block.last_end();
    walk.pass_part(last, next, end)?;
    let value = Rooted { heap, root: v };
    let fresh = write_value(text, &value, table, walk, word, at)?;
    Ok(fresh)
}

/// Returns the word of a field.
#[inline(always)]
pub fn word_at(fields: &[u64], i: u64) -> u64
    requires { i < length fields.now }
    ensures { result ≡ slice_index fields.now i }
{
    fields[i as usize]
}

// Appends the beginning of the value of a word. If the value is an object that occurred before,
// makes the value the next value instead.
#[inline(always)]
fn write_value<'a>(
    text: &mut Vec<u8>,
    value: &Rooted<'a>,
    table: &'a TypeTable,
    walk: &mut PrintWalk<'a>,
    word: u64,
    at: usize,
) -> Result<bool, Memory>
    requires walk { IsWalk table.now value.now.heap.now walk.old }
    requires none { walk.old.value ≡ None }
    requires word { word ≡ word_of value.now.heap.now value.now.root }
    requires typed { IsTypedAt (table_of table.now) value.now.heap.now value.now.root at }
    ensures none { IfOk result (λ fresh. fresh ≡ true → walk.new.value ≡ None) }
    ensures write { IfOk result
        (λ _. IsWrittenOn table.now value.now.heap.now
        (left_of table.now value.now.heap.now (levels_of walk.old) (Some (value.now.root, at))
        walk.old.order)
        walk.old.order text.old.items text.new.items walk.new) }
{
    let heap = value.heap;
    let v = value.root;
    if !is_asked(table.shape(at)) {
        write_few(text, b"_")?;
        return Ok(true);
    }
    match v {
        Val::Int(z) => {
            write_int_at(text, z, table.shape(at), table.names(at))?;
            Ok(true)
        }
        Val::Atom(_) => {
            write_few(text, b"[||]")?;
            Ok(true)
        }
        Val::Ref(o) => {
            if walk.marks[o as usize] {
                walk.value = Some((v, at));
                return Ok(false);
            }
            let placed = NumberedObject { heap, object: o };
            write_object(text, &placed, table, walk, word, at)?;
            Ok(true)
        }
    }
}

// Appends the beginning of an object that has not occurred before.
#[inline(always)]
fn write_object<'a>(
    text: &mut Vec<u8>,
    placed: &NumberedObject<'a>,
    table: &'a TypeTable,
    walk: &mut PrintWalk<'a>,
    word: u64,
    at: usize,
) -> Result<(), Memory>
    requires walk { IsWalk table.now placed.now.heap.now walk.old }
    requires none { walk.old.value ≡ None }
    requires unmet { slice_index_or walk.old.marks.items placed.now.object false ≡ false }
    requires word { word ≡ word_of placed.now.heap.now (vals.Ref placed.now.object) }
    requires typed { IsTypedAt (table_of table.now) placed.now.heap.now
        (vals.Ref placed.now.object) at }
    requires asked { IsTrue (is_asked (shape_in table.now at)) }
    ensures none { OnOk result (walk.new.value ≡ None) }
    ensures write { OnOk result
        (IsWrittenOn table.now placed.now.heap.now
        (left_of table.now placed.now.heap.now (levels_of walk.old)
        (Some (vals.Ref placed.now.object, at)) walk.old.order)
        walk.old.order text.old.items text.new.items walk.new) }
{
    let heap = placed.heap;
    let o = placed.object;
    walk.marks[o as usize] = true;
    walk.order.push(o)?;
    let Kind::Block(tag, _) = heap.kind_at(word) else {
        write_leaf(text, heap, table, o, word, at)?;
        return Ok(());
    };
    let outside = walk.ends.len();
    write_block(text, placed, table, &mut walk.stack, word, tag, at, outside)?;
    Ok(())
}

/// Appends an object without parts, given the number of the object's type.
#[inline(always)]
pub fn write_leaf(
    text: &mut Vec<u8>,
    heap: &Heap,
    table: &TypeTable,
    o: u64,
    word: u64,
    at: usize,
) -> Result<(), Memory>
    requires step { IsStep table.now heap.now (steps.Leaf o at) }
    requires word { word ≡ word_of heap.now (vals.Ref o) }
    ensures { OnOk result
        (text.new.items
        ≡ text.old.items
        ++ object_text (shape_in table.now at) (names_in table.now at)
        (object_at heap.now o)) }
{
    write_object_at(text, heap, word, table.shape(at), table.names(at))
}

// Appends the text before the parts of a block, and opens the block.
#[inline(never)]
fn write_block<'a>(
    text: &mut Vec<u8>,
    placed: &NumberedObject<'a>,
    table: &'a TypeTable,
    stack: &mut Vec<OpenBlock<'a>>,
    word: u64,
    tag: u8,
    at: usize,
    outside: usize,
) -> Result<(), Memory>
    requires block { object_at placed.now.heap.now placed.now.object
        ≡ objects.Block tag (fields_of (object_at placed.now.heap.now placed.now.object)) }
    requires word { word ≡ word_of placed.now.heap.now (vals.Ref placed.now.object) }
    requires typed { IsTypedAt (table_of table.now) placed.now.heap.now
        (vals.Ref placed.now.object) at }
    ensures { OnOk result
        (IsOpened table.now placed.now.heap.now placed.now.object at tag outside stack.old.items
        stack.new.items text.old.items text.new.items) }
{
    let block = open_block(placed, table, word, tag, at, outside);
    block.frame.write_opening(text)?;
    stack.push(block)?;
    Ok(())
}
